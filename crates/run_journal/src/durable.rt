// An entry behind the header, as one step of a file.
ghost use Rattle.std.specs.Prelude.{◌≡◌, ◌≢◌, ◌+◌, ◌<◌, ◌≤◌, ◌++◌, ◌∷◌, [], ℕ, length, true, false, OnOk, OnErr, IsErrOf, Err};
ghost use Rattle.cacao_site.specs.Counts.{Rose};
ghost use Rattle.cacao_site.specs.DiskCalls.{AllLeft};
ghost use Rattle.run_journal.specs.Layout.{front};
ghost use Rattle.run_journal.specs.Durable.{IsImage, MayAppend};

use crate::error::JournalError;
use crate::journal::Journal;
use cacao_site::{Bytes, Disk};

impl Journal {
    /// Adds an entry at the end, behind the header, which is written first where it is to be written. At Ok it is durable. It
    /// takes no memory.
    pub fn append_durably<D: Disk>(&mut self, disk: &mut D, item: Bytes) -> Result<(), JournalError>
        requires size { length item ≤ 17_829_888 }
        requires spare { length item < self.old.spare }
        requires whole { self.old.broken ≡ false }
        requires images { AllLeft self.old.file (D.view disk.old).disk (IsImage self.old.prepared self.old.items) }

        ensures appends { MayAppend self.old item (D.view disk.old) (D.view disk.new) }
        ensures ok { OnOk result (self.new
            ≡ record self.old { items = self.old.items ++ item ∷ []; prepared = true; spare = 0 }) }
        ensures images { OnOk result (AllLeft self.old.file (D.view disk.new).disk
            (IsImage true (self.old.items ++ item ∷ []))) }
        ensures fits { OnOk result (length (front self.old.items) + 6 + length item ≤ 67_108_864) }

        ensures file { OnErr result (self.new.file ≡ self.old.file) }
        ensures items { OnErr result (self.new.items ≡ self.old.items) }
        ensures disk { IsErrOf result JournalError.Disk
            → Rose (D.view disk.old).disk.faults (D.view disk.new).disk.faults }
        ensures steady { result ≢ Err JournalError.Disk → (D.view disk.new).disk.faults ≡ (D.view disk.old).disk.faults }
        ensures breaks { IsErrOf result JournalError.Disk → self.new.broken ≡ true }
        ensures full { (needed : ℕ) → IsErrOf result (JournalError.Full needed)
            → (needed ≡ length (front self.old.items) + 6 + length item) × (67_108_864 < needed) }
        ensures full_stays { (needed : ℕ) → IsErrOf result (JournalError.Full needed)
            → (disk.new ≡ disk.old) × (self.new ≡ self.old) }
        ensures full_only { 67_108_864 < length (front self.old.items) + 6 + length item
            → IsErrOf result (JournalError.Full (length (front self.old.items) + 6 + length item)) }
        ensures no_other { (place : ℕ) → (result ≢ Err JournalError.Broken) × (result ≢ Err JournalError.Memory)
            × (result ≢ Err (JournalError.Damaged place)) }
    {
        if self.is_prepared() {
            return self.append_behind(disk, item);
        }
        match self.prepare(disk) {
            Ok(()) => match self.append(disk, item) {
                Ok(()) => Ok(()),
                Err(error) => Err(error),
            },
            Err(error) => Err(error),
        }
    }

    /// The same where the header stands.
    fn append_behind<D: Disk>(&mut self, disk: &mut D, item: Bytes) -> Result<(), JournalError>
        requires size { length item ≤ 17_829_888 }
        requires spare { length item < self.old.spare }
        requires prepared { self.old.prepared ≡ true }
        requires whole { self.old.broken ≡ false }
        requires images { AllLeft self.old.file (D.view disk.old).disk (IsImage true self.old.items) }

        ensures appends { MayAppend self.old item (D.view disk.old) (D.view disk.new) }
        ensures ok { OnOk result (self.new
            ≡ record self.old { items = self.old.items ++ item ∷ []; prepared = true; spare = 0 }) }
        ensures images { OnOk result (AllLeft self.old.file (D.view disk.new).disk
            (IsImage true (self.old.items ++ item ∷ []))) }
        ensures fits { OnOk result (length (front self.old.items) + 6 + length item ≤ 67_108_864) }

        ensures file { OnErr result (self.new.file ≡ self.old.file) }
        ensures items { OnErr result (self.new.items ≡ self.old.items) }
        ensures disk { IsErrOf result JournalError.Disk
            → Rose (D.view disk.old).disk.faults (D.view disk.new).disk.faults }
        ensures steady { result ≢ Err JournalError.Disk → (D.view disk.new).disk.faults ≡ (D.view disk.old).disk.faults }
        ensures breaks { IsErrOf result JournalError.Disk → self.new.broken ≡ true }
        ensures full { (needed : ℕ) → IsErrOf result (JournalError.Full needed)
            → (needed ≡ length (front self.old.items) + 6 + length item) × (67_108_864 < needed) }
        ensures full_stays { (needed : ℕ) → IsErrOf result (JournalError.Full needed)
            → (disk.new ≡ disk.old) × (self.new ≡ self.old) }
        ensures full_only { 67_108_864 < length (front self.old.items) + 6 + length item
            → IsErrOf result (JournalError.Full (length (front self.old.items) + 6 + length item)) }
        ensures no_other { (place : ℕ) → (result ≢ Err JournalError.Broken) × (result ≢ Err JournalError.Memory)
            × (result ≢ Err (JournalError.Damaged place)) }
    {
        match self.append(disk, item) {
            Ok(()) => Ok(()),
            Err(error) => Err(error),
        }
    }
}
