// A site in memory, which tells everything and fails by its plan.
ghost use Rattle.std.specs.Prelude.{◌≡◌, ◌+◌, ◌-◌, ◌*◌, vec_len, vec_capacity, ◌^◌, ◌<◌, ◌≤◌, ℕ, min, IfOk, IfSome, length, Some, [], ◌∷◌, ◌++◌, take, drop, false, slice_get, option_map, if◌then◌else◌};
ghost use Rattle.cacao_site.specs.Counts.{next_count, count_after, last_count};
ghost use Rattle.cacao_site.specs.DiskCalls.{CallsOn, StaysAt, KeepsDisk, Follows, Spreads, Same, Torn, Written, IsDurable};
ghost use Rattle.cacao_site.specs.Clock.{clock_at};
ghost use Rattle.cacao_site_log.specs.Entries.{IsReadAt};
ghost use Rattle.cacao_site_memory.specs.KeptFiles.{AreKept};
ghost use Rattle.std.specs.VecDeque.{deque_len, deque_capacity};
ghost use Rattle.cacao_site_memory.specs.MemoryView.{memory_view, no_link};
ghost use Rattle.cacao_site_memory.specs.Parcels.{AreNamed};
ghost use Rattle.cacao_site_memory.specs.Plan.{fails_by};
ghost use Rattle.cacao_site.specs.SiteCounts.{no_counts};
ghost use Rattle.cacao_site.specs.View.{device_calls};
ghost use Rattle.cacao_site.specs.Sound.{IsInTime};

use crate::file_list::FileList;
use crate::kept_files::KeptFiles;
use crate::link::Link;
use crate::plan::SitePlan;
use cacao_site::{Clock, Parcel, SiteCounts};
use cacao_site_log::CallLog;
use std::alloc::{AllocError, Global};

/// A site that tells everything, at each past beat too, and fails exactly by its plan.
///
/// It keeps a record of its device calls, by which a crash picks what it leaves, and beside it what each file reads
/// as at present.
#[derive(Drop)]
pub struct MemorySite {
    pub(crate) alloc: Global,
    pub(crate) plan: SitePlan,
    pub(crate) starts: FileList,
    pub(crate) kept: KeptFiles,
    pub(crate) log: CallLog,
    pub(crate) first_beat: u64,
    // The device calls made: the number of the next one.
    pub(crate) calls: u64,
    pub(crate) disk_calls: u64,
    pub(crate) written: u64,
    pub(crate) faults: u64,
    pub(crate) used: u64,
    pub(crate) clock: Clock,
    pub(crate) counts: SiteCounts,
    pub(crate) link: Link,
    // The puts so far, as far as the list of weather goes.
    pub(crate) turn: usize,
    ghost fits: { plan.room < 2 ^ 64 },
    ghost in_room: { used ≤ plan.room },
    ghost handed: { written ≤ last_count },
    ghost of_disk: { disk_calls ≤ last_count },
    ghost of_lines: { counts.says ≤ last_count },
    ghost together: { calls ≡ min (disk_calls + counts.says) last_count },
    ghost beats: { first_beat + plan.calls < last_count },
    ghost are_kept: { AreKept starts log.calls kept },
    ghost logged: { length log.calls ≡ min calls (plan.calls + 1) },
    ghost log_most: { length log.calls + (plan.calls + 1 - calls) ≤ log.most },
    ghost log_room: { log.used + (plan.room - used) ≤ log.room },
    ghost line_most: { length log.lines + (plan.calls - calls) ≤ log.most_lines },
    ghost said_in_time: { IsInTime (count_after first_beat calls) (Some log.lines) },
    ghost turns: { turn ≤ length plan.weather },
    ghost put_slots: { 64 * (vec_len link.puts + (length plan.weather - turn)) + (plan.room - used) ≤ 64 * vec_capacity link.puts },
    ghost pending_slots: { 64 * (deque_len link.pending + vec_len link.held) + (plan.room - used) ≤ 64 * deque_capacity link.pending },
    ghost held_slots: { 64 * vec_len link.held + (plan.room - used) ≤ 64 * vec_capacity link.held },
    ghost puts_in_time: { IsInTime (count_after first_beat calls) (Some link.puts.items) },
    ghost taken_in_time: { IsInTime (count_after first_beat calls) (Some link.taken.items) },
    ghost named: { AreNamed link.puts.items link.pending.items link.held.items link.taken.items },
}

impl MemorySite {
    ghost use Rattle.cacao_site_memory.specs.MemorySite.{plan_of, used_of, view_of, held_of, turn_of, faults_after, KeepsRest};

    /// A site with blank files, no line said, no parcel and no fault.
    ///
    /// It takes all memory that its plan lets it use, and `AllocError` says that there is not that much.
    pub fn new(alloc: Global, plan: SitePlan) -> Result<MemorySite, AllocError>
        ensures view { IfOk result (λ site. view_of site ≡ memory_view [] [] 0 0 0 0 0 no_link (clock_at plan.start) no_counts) }
        ensures held { IfOk result (λ site. held_of site ≡ []) }
        ensures turn { IfOk result (λ site. turn_of site ≡ 0) }
        ensures plan { IfOk result (λ site. plan_of site ≡ plan) }
        ensures used { IfOk result (λ site. used_of site ≡ 0) }
    {
        let starts = FileList::new(alloc);
        let kept = KeptFiles::new(alloc, &starts, plan.room as usize)?;
        let calls = plan.calls as usize;
        let log = CallLog::new(alloc, plan.room as usize, calls + 1, calls)?;
        let link = Link::new(alloc, plan.slots()?)?;
        let clock = Clock::new(plan.start);
        Ok(MemorySite {
            alloc,
            plan,
            starts,
            kept,
            log,
            first_beat: 0,
            calls: 0,
            disk_calls: 0,
            written: 0,
            faults: 0,
            used: 0,
            clock,
            counts: SiteCounts::new(),
            link,
            turn: 0,
        })
    }

    /// How many lines were said.
    pub fn line_count(&self) -> usize
        ensures { IfSome (view_of self.now).link.said (λ said. result ≡ length said) }
    {
        self.log.len()
    }

    /// The bytes of a line said, by its number from 0.
    pub fn line(&self, n: usize) -> &[u8]
        requires { IfSome (view_of self.now).link.said (λ said. n < length said) }
        ensures { IfSome (view_of self.now).link.said (λ said. option_map (λ line. line.1) (slice_get said n) ≡ Some result.now) }
    {
        self.log.line(n)
    }

    /// How many parcels were put, but for those that were lost for want of room.
    pub fn put_count(&self) -> usize
        ensures { IfSome (view_of self.now).link.puts (λ puts. result ≡ length puts) }
    {
        self.link.puts.len()
    }

    /// A parcel put, by its number from 0.
    pub fn parcel_put(&self, n: usize) -> &Parcel
        requires { IfSome (view_of self.now).link.puts (λ puts. n < length puts) }
        ensures { IfSome (view_of self.now).link.puts (λ puts. option_map (λ put. put.1) (slice_get puts n) ≡ Some result.now) }
    {
        &self.link.puts[n].1
    }

    /// The count of parcels that were lost, doubled or held back.
    pub fn mishaps(&self) -> u64
        ensures { result ≡ (view_of self.now).counts.mishaps }
    {
        self.counts.mishaps
    }

    /// The count of moments that were asked of the clock and not reached.
    pub fn shorts(&self) -> u64
        ensures { result ≡ (view_of self.now).clock.shorts }
    {
        self.clock.shorts
    }

    /// Whether the next device call, which brings this many bytes, fails.
    pub(crate) fn fails(&self, size: usize) -> bool
        ensures by_plan { result ≡ fails_by (plan_of self.now) (device_calls (view_of self.now)) (used_of self.now) size }
        ensures in_calls { result ≡ false → self.now.calls < self.now.plan.calls }
        ensures in_room { result ≡ false → self.now.used + size ≤ self.now.plan.room }
        ensures room_fits { self.now.plan.room < 2 ^ 64 }
        ensures calls_fit { self.now.plan.calls < 2 ^ 32 }
    {
        let room = self.plan.room;
        self.calls >= u64::from(self.plan.calls)
            || size as u64 > room - self.used
            || self.plan.failing.contains(self.calls as u32)
    }

    /// One call of the disk that changes no file and counts no fault.
    pub(crate) fn pass(&mut self)
        ensures call { (file : ℕ) → CallsOn file 0 (view_of self.old).disk (view_of self.new).disk }
        ensures stays { (file : ℕ) → StaysAt (view_of self.old).disk (view_of self.new).disk file }
        ensures calls { self.new.calls ≡ next_count self.old.calls }
        ensures counts { self.new.counts ≡ self.old.counts }
        ensures faults { self.new.faults ≡ self.old.faults }
        ensures used { self.new.used ≡ self.old.used }
        ensures rest { KeepsRest self.old self.new }
    {
        self.add_look(false)
    }

    /// One call of the disk that changes no file and fails: one fault more.
    pub(crate) fn pass_failed(&mut self)
        ensures call { (file : ℕ) → CallsOn file 0 (view_of self.old).disk (view_of self.new).disk }
        ensures stays { (file : ℕ) → StaysAt (view_of self.old).disk (view_of self.new).disk file }
        ensures calls { self.new.calls ≡ next_count self.old.calls }
        ensures faults { self.new.faults ≡ next_count self.old.faults }
        ensures used { self.new.used ≡ self.old.used }
        ensures counts { self.new.counts ≡ self.old.counts }
        ensures rest { KeepsRest self.old self.new }
    {
        self.add_look(true)
    }

    /// Adds a call that changes no file and was handed no byte, and that failed or did not.
    fn add_look(&mut self, failed: bool)
        ensures call { (file : ℕ) → CallsOn file 0 (view_of self.old).disk (view_of self.new).disk }
        ensures stays { (file : ℕ) → StaysAt (view_of self.old).disk (view_of self.new).disk file }
        ensures calls { self.new.calls ≡ next_count self.old.calls }
        ensures written { self.new.written ≡ self.old.written }
        ensures faults { self.new.faults ≡ faults_after failed self.old.faults }
        ensures used { self.new.used ≡ self.old.used }
        ensures counts { self.new.counts ≡ self.old.counts }
        ensures rest { KeepsRest self.old self.new }
    {
        if self.calls <= u64::from(self.plan.calls) {
            self.log_look(failed)
        } else {
            self.refuse(0, failed)
        }
    }

    /// Such a call, for which the record has room.
    #[tactic(auto, using(crate::proofs::KeptLemmas::kept_steps))]
    fn log_look(&mut self, failed: bool)
        requires { self.old.calls ≤ self.old.plan.calls }
        ensures call { (file : ℕ) → CallsOn file 0 (view_of self.old).disk (view_of self.new).disk }
        ensures stays { (file : ℕ) → StaysAt (view_of self.old).disk (view_of self.new).disk file }
        ensures calls { self.new.calls ≡ next_count self.old.calls }
        ensures written { self.new.written ≡ self.old.written }
        ensures faults { self.new.faults ≡ faults_after failed self.old.faults }
        ensures used { self.new.used ≡ self.old.used }
        ensures counts { self.new.counts ≡ self.old.counts }
        ensures rest { KeepsRest self.old self.new }
    {
        self.log.look();
        self.calls = self.calls.saturating_add(1);
        self.disk_calls = self.disk_calls.saturating_add(1);
        self.faults = self.faults_after(failed);
    }

    /// A call that was handed so many bytes and that failed or did not, past the first that the plan does not allow:
    /// no file changes.
    fn refuse(&mut self, size: usize, failed: bool)
        requires { self.old.plan.calls < self.old.calls }
        ensures call { (file : ℕ) → CallsOn file size (view_of self.old).disk (view_of self.new).disk }
        ensures stays { (file : ℕ) → StaysAt (view_of self.old).disk (view_of self.new).disk file }
        ensures calls { self.new.calls ≡ next_count self.old.calls }
        ensures written { self.new.written ≡ count_after self.old.written size }
        ensures faults { self.new.faults ≡ faults_after failed self.old.faults }
        ensures used { self.new.used ≡ self.old.used }
        ensures counts { self.new.counts ≡ self.old.counts }
        ensures rest { KeepsRest self.old self.new }
    {
        self.calls = self.calls.saturating_add(1);
        self.disk_calls = self.disk_calls.saturating_add(1);
        self.written = self.written.saturating_add(size as u64);
        self.faults = self.faults_after(failed);
    }

    /// The count of faults after a call that failed or did not.
    fn faults_after(&self, failed: bool) -> u64
        ensures value { result ≡ faults_after failed self.now.faults }
        ensures up { self.now.faults ≤ result }
    {
        if failed {
            self.faults.saturating_add(1)
        } else {
            self.faults
        }
    }

    /// One write that is done.
    #[tactic(auto, using(crate::proofs::KeptLemmas::kept_steps))]
    pub(crate) fn log_write(&mut self, file: u8, at: u64, bytes: &[u8])
        requires open { self.old.calls < self.old.plan.calls }
        requires room { self.old.used + length bytes.now ≤ self.old.plan.room }
        requires file { file ≤ 31 }
        requires fits { at + length bytes.now ≤ 67_108_864 }
        ensures call { CallsOn file (length bytes.now) (view_of self.old).disk (view_of self.new).disk }
        ensures follows { Follows file (Torn at (length bytes.now)) (view_of self.old).disk (view_of self.new).disk }
        ensures spreads { Spreads file (Torn at (length bytes.now)) (view_of self.old).disk (view_of self.new).disk }
        ensures written { Written at bytes.now ((view_of self.old).disk.reads file) ((view_of self.new).disk.reads file) }
        ensures faults { self.new.faults ≡ self.old.faults }
        ensures used { self.new.used ≡ self.old.used + length bytes.now }
        ensures counts { self.new.counts ≡ self.old.counts }
        ensures rest { KeepsRest self.old self.new }
    {
        self.log.write(file, at, bytes);
        self.kept.write(file, at, bytes);
        self.calls = self.calls.saturating_add(1);
        self.disk_calls = self.disk_calls.saturating_add(1);
        self.written = self.written.saturating_add(bytes.len() as u64);
        self.used += bytes.len() as u64;
    }

    /// One write that fails.
    #[tactic(auto, using(crate::proofs::KeptLemmas::kept_steps))]
    pub(crate) fn log_failed_write(&mut self, file: u8, at: u64, size: usize)
        requires open { self.old.calls ≤ self.old.plan.calls }
        requires fits { at + size ≤ 67_108_864 }
        ensures call { CallsOn file size (view_of self.old).disk (view_of self.new).disk }
        ensures follows { Follows file (Torn at size) (view_of self.old).disk (view_of self.new).disk }
        ensures spreads { Spreads file (Torn at size) (view_of self.old).disk (view_of self.new).disk }
        ensures reads { (view_of self.new).disk.reads file ≡ (view_of self.old).disk.reads file }
        ensures faults { self.new.faults ≡ next_count self.old.faults }
        ensures used { self.new.used ≡ self.old.used }
        ensures counts { self.new.counts ≡ self.old.counts }
        ensures rest { KeepsRest self.old self.new }
    {
        self.log.try_write(file, at, size);
        self.calls = self.calls.saturating_add(1);
        self.disk_calls = self.disk_calls.saturating_add(1);
        self.written = self.written.saturating_add(size as u64);
        self.faults = self.faults.saturating_add(1);
    }

    /// One sync that is done.
    #[tactic(auto, using(crate::proofs::KeptLemmas::kept_steps))]
    pub(crate) fn log_sync(&mut self, file: u8)
        requires { self.old.calls < self.old.plan.calls }
        ensures call { CallsOn file 0 (view_of self.old).disk (view_of self.new).disk }
        ensures follows { Follows file Same (view_of self.old).disk (view_of self.new).disk }
        ensures reads { (view_of self.new).disk.reads file ≡ (view_of self.old).disk.reads file }
        ensures durable { IsDurable file (view_of self.new).disk }
        ensures faults { self.new.faults ≡ self.old.faults }
        ensures used { self.new.used ≡ self.old.used }
        ensures counts { self.new.counts ≡ self.old.counts }
        ensures rest { KeepsRest self.old self.new }
    {
        self.log.sync(file);
        self.calls = self.calls.saturating_add(1);
        self.disk_calls = self.disk_calls.saturating_add(1);
    }

    /// One write that fails by the plan.
    pub(crate) fn fail_write(&mut self, file: u8, at: u64, size: usize)
        requires { at + size ≤ 67_108_864 }
        ensures call { CallsOn file size (view_of self.old).disk (view_of self.new).disk }
        ensures follows { Follows file (Torn at size) (view_of self.old).disk (view_of self.new).disk }
        ensures spreads { self.old.calls ≤ self.old.plan.calls
            → Spreads file (Torn at size) (view_of self.old).disk (view_of self.new).disk }
        ensures reads { (view_of self.new).disk.reads file ≡ (view_of self.old).disk.reads file }
        ensures faults { self.new.faults ≡ next_count self.old.faults }
        ensures used { self.new.used ≡ self.old.used }
        ensures counts { self.new.counts ≡ self.old.counts }
        ensures rest { KeepsRest self.old self.new }
    {
        if self.calls <= u64::from(self.plan.calls) {
            self.log_failed_write(file, at, size)
        } else {
            self.refuse(size, true)
        }
    }

    /// One call of `say`, which failed or did not: no file changes.
    pub(crate) fn pass_line(&mut self, failed: bool)
        ensures keeps { KeepsDisk (view_of self.old).disk (view_of self.new).disk }
        ensures disk_calls { self.new.disk_calls ≡ self.old.disk_calls }
        ensures calls { self.new.calls ≡ next_count self.old.calls }
        ensures says { self.new.counts.says ≡ next_count self.old.counts.says }
        ensures unsaid { self.new.counts.unsaid ≡ (if failed then next_count self.old.counts.unsaid else self.old.counts.unsaid) }
        ensures unsaid_fits { self.old.counts.unsaid < 2 ^ 64 }
        ensures mishaps { self.new.counts.mishaps ≡ self.old.counts.mishaps }
        ensures used { self.new.used ≡ self.old.used }
        ensures rest { KeepsRest self.old self.new }
    {
        if self.calls <= u64::from(self.plan.calls) {
            self.log_line(failed)
        } else {
            self.refuse_line(failed)
        }
    }

    /// Such a call, for which the record has room.
    #[tactic(auto, using(crate::proofs::KeptLemmas::kept_steps))]
    fn log_line(&mut self, failed: bool)
        requires { self.old.calls ≤ self.old.plan.calls }
        ensures keeps { KeepsDisk (view_of self.old).disk (view_of self.new).disk }
        ensures disk_calls { self.new.disk_calls ≡ self.old.disk_calls }
        ensures calls { self.new.calls ≡ next_count self.old.calls }
        ensures says { self.new.counts.says ≡ next_count self.old.counts.says }
        ensures unsaid { self.new.counts.unsaid ≡ (if failed then next_count self.old.counts.unsaid else self.old.counts.unsaid) }
        ensures unsaid_fits { self.old.counts.unsaid < 2 ^ 64 }
        ensures mishaps { self.new.counts.mishaps ≡ self.old.counts.mishaps }
        ensures used { self.new.used ≡ self.old.used }
        ensures rest { KeepsRest self.old self.new }
    {
        self.log.look();
        self.calls = self.calls.saturating_add(1);
        self.counts.count_say(failed);
    }

    /// Such a call, past the first that the plan does not allow.
    fn refuse_line(&mut self, failed: bool)
        requires { self.old.plan.calls < self.old.calls }
        ensures keeps { KeepsDisk (view_of self.old).disk (view_of self.new).disk }
        ensures disk_calls { self.new.disk_calls ≡ self.old.disk_calls }
        ensures calls { self.new.calls ≡ next_count self.old.calls }
        ensures says { self.new.counts.says ≡ next_count self.old.counts.says }
        ensures unsaid { self.new.counts.unsaid ≡ (if failed then next_count self.old.counts.unsaid else self.old.counts.unsaid) }
        ensures unsaid_fits { self.old.counts.unsaid < 2 ^ 64 }
        ensures mishaps { self.new.counts.mishaps ≡ self.old.counts.mishaps }
        ensures used { self.new.used ≡ self.old.used }
        ensures rest { KeepsRest self.old self.new }
    {
        self.calls = self.calls.saturating_add(1);
        self.counts.count_say(failed);
    }

    /// One line that is said.
    pub(crate) fn add_line(&mut self, bytes: &[u8])
        requires open { self.old.calls < self.old.plan.calls }
        requires room { self.old.used + length bytes.now ≤ self.old.plan.room }
        ensures keeps { KeepsDisk (view_of self.old).disk (view_of self.new).disk }
        ensures disk_calls { self.new.disk_calls ≡ self.old.disk_calls }
        ensures calls { self.new.calls ≡ next_count self.old.calls }
        ensures says { self.new.counts.says ≡ next_count self.old.counts.says }
        ensures unsaid { self.new.counts.unsaid ≡ self.old.counts.unsaid }
        ensures mishaps { self.new.counts.mishaps ≡ self.old.counts.mishaps }
        ensures lines { self.new.log.lines ≡ self.old.log.lines ++ ((view_of self.new).disk.beat, bytes.now) ∷ [] }
        ensures used { self.new.used ≡ self.old.used + length bytes.now }
        ensures plan { self.new.plan ≡ self.old.plan }
        ensures clock { self.new.clock ≡ self.old.clock }
        ensures link { self.new.link ≡ self.old.link }
        ensures turn { self.new.turn ≡ self.old.turn }
    {
        self.pass_line(false);
        self.used += bytes.len() as u64;
        let beat = self.first_beat + self.calls;
        self.log.say(beat, bytes);
    }

    /// Fills the front of the buffer with what the file has from place `at` on, and answers how many bytes that is.
    pub(crate) fn read_front(&self, file: u8, at: u64, into: &mut [u8]) -> u32
        requires file { file ≤ 31 }
        requires size { length into.old ≤ 4_096 }
        ensures count { result ≤ length into.old }
        ensures bytes { take result into.new ≡ take (length into.old) (drop at ((view_of self.now).disk.reads file)) }
        ensures behind { drop result into.new ≡ drop result into.old }
    {
        let left = self.length_of(file).saturating_sub(at);
        let count = left.min(into.len() as u64);
        if count > 0 {
            self.fill(file, at, &mut into[..count as usize]);
        }
        count as u32
    }

    /// The file's length in bytes.
    pub(crate) fn length_of(&self, file: u8) -> u64
        requires { file ≤ 31 }
        ensures { result ≡ length ((view_of self.now).disk.reads file) }
    {
        self.kept.length(file)
    }

    /// Fills the buffer with what the file has from place `at` on, and with zeros past its end.
    ///
    /// It goes through the record of calls only where the file is not kept.
    fn fill(&self, file: u8, at: u64, into: &mut [u8])
        requires file { file ≤ 31 }
        requires end { at + length into.old < 2 ^ 64 }
        ensures { IsReadAt ((view_of self.now).disk.reads file) at into.new }
    {
        if self.kept.is_whole(file) {
            self.kept.fill(file, at, into);
            return;
        }
        self.log.fill(file, self.starts.file(file), at, into);
    }
}
