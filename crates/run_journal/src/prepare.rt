// The header of a journal.
ghost use Rattle.std.specs.Prelude.{◌≡◌, ◌≢◌, ◌↔◌, ◌+◌, ◌≤◌, ◌⊎◌, ℕ, length, false, true, OnOk, OnErr, IsErrOf, Err};
ghost use Rattle.cacao_site.specs.Counts.{Rose};
ghost use Rattle.cacao_site.specs.DiskCalls.{StaysAt, SameRest, EachBeat, AllLeft};
ghost use Rattle.run_journal.specs.Layout.{HasLayout, Stands};

use crate::error::JournalError;
use crate::journal::Journal;
use crate::layout::BLANK;
use crate::store::write_and_sync;
use cacao_site::Disk;

impl Journal {
    /// Writes the header with a closed gate and syncs, where it is to be written; else does nothing.
    ///
    /// It is to be written where the file had at most 9 bytes when it was opened and this value has not prepared it
    /// since. Takes no memory.
    pub fn prepare<D: Disk>(&mut self, disk: &mut D) -> Result<(), JournalError>
        requires { self.old.broken ≡ false → self.old.prepared ≡ false
            → AllLeft self.old.file (D.view disk.old).disk (λ image. length image ≤ 9) }

        // At each beat every image stands for the value's list, as it did before.
        ensures each_beat { self.old.broken ≡ false
            → AllLeft self.old.file (D.view disk.old).disk (λ image. Stands image self.old.items)
            → EachBeat self.old.file (D.view disk.old).disk (D.view disk.new).disk (λ image. Stands image self.old.items) }
        ensures written { OnOk result (self.old.prepared ≡ false
            → AllLeft self.old.file (D.view disk.new).disk (HasLayout self.old.items)) }
        ensures ok { OnOk result (self.new ≡ record self.old { prepared = true }) }
        ensures idle { self.old.prepared ≡ true → disk.new ≡ disk.old }

        ensures others { (other : ℕ) → other ≢ self.old.file → StaysAt (D.view disk.old).disk (D.view disk.new).disk other }
        ensures rest { SameRest (D.view disk.old) (D.view disk.new) }
        ensures calls { (D.view disk.new).disk.calls ≤ (D.view disk.old).disk.calls + 2 }
        ensures bytes { (D.view disk.new).disk.written ≤ (D.view disk.old).disk.written + 9 }

        ensures disk { IsErrOf result JournalError.Disk → Rose (D.view disk.old).disk.faults (D.view disk.new).disk.faults }
        ensures steady { result ≢ Err JournalError.Disk → (D.view disk.new).disk.faults ≡ (D.view disk.old).disk.faults }
        ensures breaks { IsErrOf result JournalError.Disk → self.new ≡ record self.old { broken = true } }
        ensures broken { IsErrOf result JournalError.Broken ↔ (self.old.broken ≡ true) }
        ensures broken_stays { IsErrOf result JournalError.Broken → disk.new ≡ disk.old }
        ensures broken_same { IsErrOf result JournalError.Broken → self.new ≡ self.old }
        ensures no_other { OnErr result ((IsErrOf result JournalError.Disk) ⊎ (IsErrOf result JournalError.Broken)) }
    {
        if self.broken {
            return Err(JournalError::Broken);
        }
        if self.prepared {
            return Ok(());
        }
        match write_and_sync(disk, self.file, 0, &BLANK) {
            Ok(()) => {
                self.prepared = true;
                Ok(())
            }
            Err(_) => {
                self.broken = true;
                Err(JournalError::Disk)
            }
        }
    }
}
