// One entry more.
ghost use Rattle.std.specs.Prelude.{◌≡◌, ◌≢◌, ◌↔◌, ◌+◌, ◌<◌, ◌≤◌, ◌++◌, ◌∷◌, [], ℕ, length, false, true, vec_capacity, Err, OnOk, IsErrOf};
ghost use Rattle.cacao_site.specs.Counts.{Rose};
ghost use Rattle.cacao_site.specs.DiskCalls.{StaysAt, SameRest, EachBeat, AllLeft};
ghost use Rattle.run_journal.specs.Layout.{HasLayout, Stands, BeforeOrAfter, StandsBeforeOrAfter, front, block_for};

use crate::error::JournalError;
use crate::journal::Journal;
use crate::layout::{HEAD_SIZE, MOST_IMAGE};
use crate::store::add_block;
use cacao_site::{Bytes, Disk};

impl Journal {
    /// Adds an entry at the end. At Ok it is durable.
    ///
    /// The length, the entry and a closed gate go behind the closed gate and are synced; then the gate is opened and
    /// synced. Takes no memory: `reserve` has made the room.
    pub fn append<D: Disk>(&mut self, disk: &mut D, item: Bytes) -> Result<(), JournalError>
        requires prepared { self.old.prepared ≡ true }
        requires size { length item ≤ 17_829_888 }
        requires spare { length item < self.old.spare }
        requires ready { self.old.broken ≡ false → AllLeft self.old.file (D.view disk.old).disk (HasLayout self.old.items) }

        // At each beat every image has the list before, or that list and the item.
        ensures each_beat { self.old.broken ≡ false
            → EachBeat self.old.file (D.view disk.old).disk (D.view disk.new).disk (BeforeOrAfter self.old.items item) }
        ensures each_stands { self.old.broken ≡ false
            → EachBeat self.old.file (D.view disk.old).disk (D.view disk.new).disk (StandsBeforeOrAfter self.old.items item) }
        ensures ok { OnOk result (self.new ≡ record self.old { items = self.old.items ++ item ∷ []; spare = 0 }) }
        ensures durable { OnOk result
            (AllLeft self.old.file (D.view disk.new).disk (HasLayout (self.old.items ++ item ∷ []))) }

        ensures stands { OnOk result
            (AllLeft self.old.file (D.view disk.new).disk (λ image. Stands image (self.old.items ++ item ∷ []))) }

        ensures others { (other : ℕ) → other ≢ self.old.file → StaysAt (D.view disk.old).disk (D.view disk.new).disk other }
        ensures rest { SameRest (D.view disk.old) (D.view disk.new) }
        ensures calls { (D.view disk.new).disk.calls ≤ (D.view disk.old).disk.calls + 4 }
        ensures bytes { (D.view disk.new).disk.written ≤ (D.view disk.old).disk.written + length item + 6 }

        ensures disk { IsErrOf result JournalError.Disk → Rose (D.view disk.old).disk.faults (D.view disk.new).disk.faults }
        ensures steady { result ≢ Err JournalError.Disk → (D.view disk.new).disk.faults ≡ (D.view disk.old).disk.faults }
        ensures breaks { IsErrOf result JournalError.Disk → self.new ≡ record self.old { broken = true } }
        ensures broken { IsErrOf result JournalError.Broken ↔ (self.old.broken ≡ true) }
        ensures broken_stays { IsErrOf result JournalError.Broken → (disk.new ≡ disk.old) × (self.new ≡ self.old) }
        ensures full { (needed : ℕ) → IsErrOf result (JournalError.Full needed)
            → (needed ≡ length (front self.old.items) + 6 + length item) × (67_108_864 < needed) }
        ensures full_only { self.old.broken ≡ false → 67_108_864 < length (front self.old.items) + 6 + length item
            → IsErrOf result (JournalError.Full (length (front self.old.items) + 6 + length item)) }
        ensures full_stays { (needed : ℕ) → IsErrOf result (JournalError.Full needed) → (disk.new ≡ disk.old) × (self.new ≡ self.old) }
        ensures no_other { (place : ℕ) → (result ≢ Err (JournalError.Damaged place)) × (result ≢ Err JournalError.Memory) }
    {
        if self.broken {
            return Err(JournalError::Broken);
        }
        let size = item.len() as u64;
        let length = self.gate + HEAD_SIZE as u64 + size + 1;
        if length > MOST_IMAGE {
            return Err(JournalError::Full { length });
        }
        fill_block(&mut self.block, item.as_slice());
        match add_block(disk, self.file, self.gate, self.block.as_slice()) {
            Ok(()) => {
                self.gate += HEAD_SIZE as u64 + size;
                self.items.push_reserved(item.as_slice());
                drop(item);
                self.spare = 0;
                Ok(())
            }
            Err(_) => {
                self.broken = true;
                Err(JournalError::Disk)
            }
        }
    }
}

/// The length, the entry and a closed gate, in memory that was taken before.
fn fill_block(block: &mut Vec<u8>, item: &[u8])
    requires size { length item.now ≤ 17_829_888 }
    requires room { length item.now + 5 ≤ vec_capacity block.old }
    ensures items { block.new.items ≡ block_for item.now }
    ensures capacity { vec_capacity block.old ≤ vec_capacity block.new }
{
    block.clear();
    let size = (item.len() as u32).to_be_bytes();
    block.extend_from_slice(&size).unwrap();
    block.extend_from_slice(item).unwrap();
    block.push(0).unwrap();
}
