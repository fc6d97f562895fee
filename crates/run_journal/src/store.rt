// Writes that are made durable.
ghost use Rattle.std.specs.Prelude.{◌≡◌, ◌≢◌, ◌+◌, ◌≤◌, ℕ, List, length, IsTrue, OnOk, OnErr};
ghost use Rattle.cacao_site.specs.Counts.{Rose};
ghost use Rattle.cacao_site.specs.DiskCalls.{GoesOn, StaysAt, SameRest, Written, IsDurable, EachBeat, AllLeft, TornSince};
ghost use Rattle.run_journal.specs.Layout.{IsClosed, HasOpened, IsClosedOrOpened, IsWithin};

use cacao_site::{Disk, Failed};

/// Writes and syncs. Until it is done a crash may tear the write.
pub fn write_and_sync<D: Disk>(disk: &mut D, file: u8, at: u64, bytes: &[u8]) -> Result<(), Failed>
    requires file { file ≤ 16 }
    requires fits { at + length bytes.now ≤ 67_108_864 }
    ensures torn { TornSince file at (length bytes.now) (D.view disk.old).disk (D.view disk.new).disk }
    ensures others { (other : ℕ) → other ≢ file → StaysAt (D.view disk.old).disk (D.view disk.new).disk other }
    ensures rest { SameRest (D.view disk.old) (D.view disk.new) }
    ensures calls { (D.view disk.new).disk.calls ≤ (D.view disk.old).disk.calls + 2 }
    ensures bytes { (D.view disk.new).disk.written ≤ (D.view disk.old).disk.written + length bytes.now }
    ensures faultless { OnOk result ((D.view disk.new).disk.faults ≡ (D.view disk.old).disk.faults) }
    ensures cause { OnErr result (Rose (D.view disk.old).disk.faults (D.view disk.new).disk.faults) }
    ensures written { OnOk result (IsTrue (D.view disk.old).disk.told
        → Written at bytes.now ((D.view disk.old).disk.reads file) ((D.view disk.new).disk.reads file)) }
    ensures durable { OnOk result (IsDurable file (D.view disk.new).disk) }
{
    disk.write(file, at, bytes)?;
    disk.sync(file)?;
    Ok(())
}

/// Puts a block behind the closed gate, and then opens the gate.
pub fn add_block<D: Disk>(disk: &mut D, file: u8, gate: u64, block: &[u8]) -> Result<(), Failed>
    requires file { file ≤ 16 }
    requires fits { gate + 1 + length block.now ≤ 67_108_864 }
    ensures each_beat { (start : List ℕ) → length start ≡ gate → AllLeft file (D.view disk.old).disk (IsClosed start)
        → EachBeat file (D.view disk.old).disk (D.view disk.new).disk (IsClosedOrOpened start block.now) }
    ensures opened { OnOk result ((start : List ℕ) → length start ≡ gate → AllLeft file (D.view disk.old).disk (IsClosed start)
        → AllLeft file (D.view disk.new).disk (HasOpened start block.now)) }
    ensures within { AllLeft file (D.view disk.old).disk IsWithin → EachBeat file (D.view disk.old).disk (D.view disk.new).disk IsWithin }
    ensures goes_on { GoesOn (D.view disk.old).disk (D.view disk.new).disk }
    ensures others { (other : ℕ) → other ≢ file → StaysAt (D.view disk.old).disk (D.view disk.new).disk other }
    ensures rest { SameRest (D.view disk.old) (D.view disk.new) }
    ensures calls { (D.view disk.new).disk.calls ≤ (D.view disk.old).disk.calls + 4 }
    ensures bytes { (D.view disk.new).disk.written ≤ (D.view disk.old).disk.written + length block.now + 1 }
    ensures faultless { OnOk result ((D.view disk.new).disk.faults ≡ (D.view disk.old).disk.faults) }
    ensures cause { OnErr result (Rose (D.view disk.old).disk.faults (D.view disk.new).disk.faults) }
{
    write_and_sync(disk, file, gate + 1, block)?;
    write_and_sync(disk, file, gate, &[1])?;
    Ok(())
}
