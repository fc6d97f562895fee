// Calls of the outside one after another, with what the traits' clauses say of them together.
ghost use Rattle.std.specs.Prelude.{◌≡◌, ◌≢◌, ◌+◌, ◌≤◌, ℕ, OnErr, OnOk, length};
ghost use Rattle.cacao_site.specs.Counts.{next_count};
ghost use Rattle.cacao_site.specs.DiskCalls.{EachBeat, IsDurable, IsLeft, OnlyFile, SameRest, StaysAt, TornSince};
ghost use Rattle.cacao_site.specs.RunViews.{file_of};

use cacao_site::{Disk, Failed, Rack, RunView, Site};

/// A write and a sync: until it is durable, a crash may leave it torn.
pub(crate) fn write_and_sync<D: Disk>(
    disk: &mut D,
    file: u8,
    at: u64,
    bytes: &[u8],
) -> Result<(), Failed>
    requires file { file ≤ 16 }
    requires fits { at + length bytes.now ≤ 67_108_864 }
    ensures torn { TornSince file at (length bytes.now) (D.view disk.old).disk (D.view disk.new).disk }
    ensures others { (other : ℕ) → other ≢ file → StaysAt (D.view disk.old).disk (D.view disk.new).disk other }
    ensures rest { SameRest (D.view disk.old) (D.view disk.new) }
    ensures durable { OnOk result (IsDurable file (D.view disk.new).disk) }
{
    match disk.write(file, at, bytes) {
        Ok(()) => disk.sync(file),
        Err(failed) => Err(failed),
    }
}

/// Syncs, which only take images away.
pub(crate) fn sync_often<D: Disk>(disk: &mut D, file: u8, times: u8)
    requires { file ≤ 16 }
    ensures each { EachBeat file (D.view disk.old).disk (D.view disk.new).disk (IsLeft (D.view disk.old).disk file (D.view disk.old).disk.beat) }
    ensures rest { SameRest (D.view disk.old) (D.view disk.new) }
{
    for _ in 0..times {
        let _ = disk.sync(file);
    }
}

/// A call on another file, and a line: the file after it keeps its images.
fn look_and_say<S: Site>(site: &mut S, file: u8, line: &[u8]) -> Result<(), Failed>
    requires { file ≤ 15 }
    ensures { EachBeat (file + 1) (S.view site.old).disk (S.view site.new).disk (IsLeft (S.view site.old).disk (file + 1) (S.view site.old).disk.beat) }
{
    let _ = site.length(file);
    site.say(line)
}

/// The same twice.
pub(crate) fn look_and_say_twice<S: Site>(site: &mut S, file: u8, line: &[u8]) -> Result<(), Failed>
    requires { file ≤ 15 }
    ensures { EachBeat (file + 1) (S.view site.old).disk (S.view site.new).disk (IsLeft (S.view site.old).disk (file + 1) (S.view site.old).disk.beat) }
{
    let _ = look_and_say(site, file, line);
    look_and_say(site, file, line)
}

/// Syncs file 0, and changes no other.
fn sync_first<D: Disk>(disk: &mut D) -> Result<(), Failed>
    ensures only { OnlyFile 0 (D.view disk.old) (D.view disk.new) (IsLeft (D.view disk.old).disk 0 (D.view disk.old).disk.beat) }
    ensures faultless { OnOk result ((D.view disk.new).disk.faults ≡ (D.view disk.old).disk.faults) }
    ensures cause { OnErr result ((D.view disk.new).disk.faults ≡ next_count (D.view disk.old).disk.faults) }
{
    disk.sync(0)
}

/// Syncs the journal of the run at this place by a call that knows nothing of racks: no other file of the rack changes.
pub(crate) fn sync_seen<R: Rack>(rack: &mut R, place: u8) -> Result<(), Failed>
    requires { place ≤ 15 }
    ensures { OnlyFile (file_of place) (R.view rack.old) (R.view rack.new) (IsLeft (R.view rack.old).disk (file_of place) (R.view rack.old).disk.beat) }
{
    let mut view = RunView::new(rack, place);
    sync_first(&mut view)
}

/// The same of one of two disks, which is lent to the call and known again behind it.
pub fn sync_lent<D: Disk>(one: &mut D, other: &mut D) -> Result<(), Failed>
    ensures one { OnlyFile 0 (D.view one.old) (D.view one.new) (IsLeft (D.view one.old).disk 0 (D.view one.old).disk.beat) }
    ensures faultless { OnOk result ((D.view one.new).disk.faults ≡ (D.view one.old).disk.faults) }
    ensures cause { OnErr result ((D.view one.new).disk.faults ≡ next_count (D.view one.old).disk.faults) }
    ensures other { D.view other.new ≡ D.view other.old }
{
    let _ = other;
    let mut lent = &mut *one;
    sync_first(&mut lent)
}
