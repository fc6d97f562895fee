// A crash of a site in memory.
ghost use Rattle.std.specs.Prelude.{◌≡◌, ◌+◌, ◌≤◌, ℕ, List, Some, [], IfOk, length};
ghost use Rattle.cacao_site_memory.specs.Crash.{ArePicked};
ghost use Rattle.cacao_site.specs.DiskCalls.{IsLeft, IsDurable};
ghost use Rattle.cacao_site.specs.Clock.{clock_at};
ghost use Rattle.cacao_site.specs.SiteCounts.{no_counts};
ghost use Rattle.cacao_site.specs.View.{device_calls};
ghost use Rattle.cacao_site_memory.specs.MemoryView.{link_view, memory_view};
ghost use Rattle.cacao_site_memory.specs.Parcels.{all_marked_at, AreNamed};
ghost use Rattle.cacao_site.specs.Sound.{IsInTime};

use crate::file_list::{FILES, FileList};
use crate::kept_files::KeptFiles;
use crate::link::Link;
use crate::plan::SitePlan;
use crate::site::MemorySite;
use cacao_site::{Bytes, Clock, SiteCounts};
use cacao_site_log::CallLog;
use std::alloc::{AllocError, Global};

impl MemorySite {
    ghost use Rattle.cacao_site_memory.specs.MemorySite.{plan_of, used_of, view_of, held_of, turn_of, synced_of};

    /// The site after a crash at this moment, under its own plan: `crash_with` of that plan.
    pub fn crash(self, choice: u64) -> Result<MemorySite, AllocError>
        // Every image of the new site was one of the old at that moment.
        ensures left { IfOk result (λ site. (file : ℕ) (image : List ℕ) → file ≤ 31
            → IsLeft (view_of site).disk file (view_of site).disk.beat image
            → IsLeft (view_of self).disk file (view_of self).disk.beat image) }
        // So is what each file of it reads as.
        ensures image { IfOk result (λ site. (file : ℕ) → file ≤ 31
            → IsLeft (view_of self).disk file (view_of self).disk.beat ((view_of site).disk.reads file)) }
        ensures reads { IfOk result (λ site. (file : ℕ) → file ≤ 31 → choice ≡ 0
            → (view_of site).disk.reads file ≡ (view_of self).disk.reads file) }
        ensures synced { IfOk result (λ site. (file : ℕ) → file ≤ 31 → choice ≡ 1
            → (view_of site).disk.reads file ≡ synced_of self file) }
        ensures durable { IfOk result (λ site. (file : ℕ) → IsDurable file (view_of site).disk) }

        // Parcels and lines are as they were.
        ensures link { IfOk result (λ site. (view_of site).link ≡ (view_of self).link) }
        ensures held { IfOk result (λ site. held_of site ≡ held_of self) }

        ensures beat { IfOk result (λ site. (view_of site).disk.beat ≡ (view_of self).disk.beat) }
        ensures clock { IfOk result (λ site. (view_of site).clock ≡ clock_at (plan_of self).start) }
        ensures counts { IfOk result (λ site. (view_of site).counts ≡ no_counts) }
        ensures calls { IfOk result (λ site. device_calls (view_of site) ≡ 0) }
        ensures written { IfOk result (λ site. (view_of site).disk.written ≡ 0) }
        ensures faults { IfOk result (λ site. (view_of site).disk.faults ≡ 0) }
        ensures used { IfOk result (λ site. used_of site ≡ 0) }
        ensures turn { IfOk result (λ site. turn_of site ≡ 0) }
        ensures plan { IfOk result (λ site. plan_of site ≡ plan_of self) }
    {
        let files = self.picked_files(choice)?;
        let beat = self.first_beat.saturating_add(self.calls);
        MemorySite::restart(self.alloc, self.plan, files, self.log, self.link, beat)
    }

    /// The site after a crash at this moment, where `choice` picks what each file then holds, under another plan.
    ///
    /// 0 leaves what a read gives, and 1 what the last sync that was Ok left, or the contents at the start where there
    /// was none. Every other number leaves some image that the crash may leave: with `cut` a third of the number less
    /// 2, of each write since that sync the front up to byte `cut` lands, or the rest alone, or the front with other
    /// bytes behind it. Parcels, those held back too, and lines are kept. The failing calls, the calls made, the room
    /// used, the clock and the weather start anew by the plan, and no fault and no mishap is counted.
    pub fn crash_with(self, choice: u64, plan: SitePlan) -> Result<MemorySite, AllocError>
        // Every image of the new site was one of the old at that moment.
        ensures left { IfOk result (λ site. (file : ℕ) (image : List ℕ) → file ≤ 31
            → IsLeft (view_of site).disk file (view_of site).disk.beat image
            → IsLeft (view_of self).disk file (view_of self).disk.beat image) }
        // So is what each file of it reads as.
        ensures image { IfOk result (λ site. (file : ℕ) → file ≤ 31
            → IsLeft (view_of self).disk file (view_of self).disk.beat ((view_of site).disk.reads file)) }
        ensures reads { IfOk result (λ site. (file : ℕ) → file ≤ 31 → choice ≡ 0
            → (view_of site).disk.reads file ≡ (view_of self).disk.reads file) }
        ensures synced { IfOk result (λ site. (file : ℕ) → file ≤ 31 → choice ≡ 1
            → (view_of site).disk.reads file ≡ synced_of self file) }
        ensures durable { IfOk result (λ site. (file : ℕ) → IsDurable file (view_of site).disk) }

        // Parcels and lines are as they were.
        ensures link { IfOk result (λ site. (view_of site).link ≡ (view_of self).link) }
        ensures held { IfOk result (λ site. held_of site ≡ held_of self) }

        ensures beat { IfOk result (λ site. (view_of site).disk.beat ≡ (view_of self).disk.beat) }
        ensures clock { IfOk result (λ site. (view_of site).clock ≡ clock_at plan.start) }
        ensures counts { IfOk result (λ site. (view_of site).counts ≡ no_counts) }
        ensures calls { IfOk result (λ site. device_calls (view_of site) ≡ 0) }
        ensures written { IfOk result (λ site. (view_of site).disk.written ≡ 0) }
        ensures faults { IfOk result (λ site. (view_of site).disk.faults ≡ 0) }
        ensures used { IfOk result (λ site. used_of site ≡ 0) }
        ensures turn { IfOk result (λ site. turn_of site ≡ 0) }
        ensures plan { IfOk result (λ site. plan_of site ≡ plan) }
    {
        let files = self.picked_files(choice)?;
        let beat = self.first_beat.saturating_add(self.calls);
        MemorySite::restart(self.alloc, plan, files, self.log, self.link, beat)
    }

    /// What each file holds after a crash now.
    fn picked_files(&self, choice: u64) -> Result<FileList, AllocError>
        ensures count { IfOk result (λ files. length files ≡ 32) }
        ensures picked { IfOk result (λ files. ArePicked self.now.starts self.now.log.calls choice files) }
    {
        let mut files = FileList::new(self.alloc);
        for file in 0..FILES {
            let image = self
                .log
                .crash_image(self.alloc, file, self.starts.file(file), choice)?;
            files.push(Bytes::from_vec(image))?;
        }
        Ok(files)
    }

    /// A site that begins at a beat with these files and parcels, and with the lines of this record.
    ///
    /// It has no memory for the record where its calls could pass the last beat.
    fn restart(
        alloc: Global,
        plan: SitePlan,
        starts: FileList,
        was: CallLog,
        mut link: Link,
        beat: u64,
    ) -> Result<MemorySite, AllocError>
        requires lines { IsInTime beat (Some was.lines) }
        requires puts { IsInTime beat (Some link.puts.items) }
        requires taken { IsInTime beat (Some link.taken.items) }
        requires named { AreNamed link.puts.items link.pending.items link.held.items link.taken.items }
        ensures view { IfOk result (λ site. view_of site ≡ memory_view starts [] beat 0 0 0 0 (link_view link was.lines) (clock_at plan.start) no_counts) }
        ensures held { IfOk result (λ site. held_of site ≡ all_marked_at link.puts.items link.held.items) }
        ensures turn { IfOk result (λ site. turn_of site ≡ 0) }
        ensures plan { IfOk result (λ site. plan_of site ≡ plan) }
        ensures used { IfOk result (λ site. used_of site ≡ 0) }
    {
        if u64::MAX - beat <= u64::from(plan.calls) {
            return Err(AllocError);
        }
        let kept = KeptFiles::new(alloc, &starts, plan.room as usize)?;
        let calls = plan.calls as usize;
        let log = was.restart(alloc, plan.room as usize, calls + 1, calls)?;
        link.make_room(plan.slots()?)?;
        let clock = Clock::new(plan.start);
        Ok(MemorySite {
            alloc,
            plan,
            starts,
            kept,
            log,
            first_beat: beat,
            calls: 0,
            disk_calls: 0,
            written: 0,
            faults: 0,
            used: 0,
            clock,
            counts: SiteCounts::new(),
            link,
            turn: 0,
        })
    }
}
