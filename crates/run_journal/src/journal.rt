// The entries of one file.
ghost use Rattle.std.specs.Prelude.{◌≡◌, ◌<◌, ◌≤◌, [], length, take, All, false, true, OnOk, OnErr, Err, slice_index_or};
ghost use Rattle.run_journal.specs.Layout.{front, IsEntry};
ghost use Rattle.run_journal.specs.JournalView.{JournalView};

use crate::error::JournalError;
use crate::layout::{HEAD_SIZE, HEADER_SIZE};
use crate::packed::Packed;
use std::alloc::Global;
use std::marker::Model;

/// The entries of a file of a disk, in order, as this value read and appended them.
///
/// After `Disk` the value answers `Broken` until the file is opened again.
pub struct Journal {
    pub(crate) file: u8,
    // The place of the closed gate, in bytes.
    pub(crate) gate: u64,
    pub(crate) broken: bool,
    pub(crate) prepared: bool,
    pub(crate) items: Packed,
    // Room for what is written behind the gate.
    pub(crate) block: Vec<u8>,
    pub(crate) spare: usize,
}

// (by hand, and not by derive: so a drop is one call in the proofs of all who own one)
impl Drop for Journal {
    fn drop(self) {
        let Self {
            file: _,
            gate: _,
            broken: _,
            prepared: _,
            items: _,
            block: _,
            spare: _,
        } = self;
    }
}

impl Model for Journal {
    ghost use Rattle.run_journal.specs.JournalView.{JournalView};

    ghost Value = { JournalView };

    ghost use Rattle.run_journal.specs.Journal.{journal_view, IsKept};

    ghost view = { journal_view };

    ghost invariant = { IsKept };
}

impl Journal {
    /// The journal of a file with at most 9 bytes. Takes no memory.
    #[tactic(auto, unfolding(crate::specs::Layout::front, crate::specs::Layout::entries))]
    pub(crate) fn blank(alloc: Global, file: u8) -> Journal
        requires { file ≤ 16 }
        ensures { result ≡ record { file = file; items = []; broken = false; prepared = false; spare = 0 } }
    {
        Journal {
            file,
            gate: HEADER_SIZE as u64,
            broken: false,
            prepared: false,
            items: Packed::new(alloc),
            block: Vec::new(alloc),
            spare: 0,
        }
    }

    /// The journal of a file with these entries. Takes no memory.
    pub(crate) fn found(alloc: Global, file: u8, items: Packed, gate: u64) -> Journal
        requires file { file ≤ 16 }
        requires gate { gate ≡ length (front items.items) }
        requires fits { gate < 67_108_864 }
        requires short { All IsEntry items.items }
        ensures { result ≡ record { file = file; items = items.items; broken = false; prepared = true; spare = 0 } }
    {
        Journal {
            file,
            gate,
            broken: false,
            prepared: true,
            items,
            block: Vec::new(alloc),
            spare: 0,
        }
    }

    /// Makes all room that the append of one more item of at most `bytes` bytes needs.
    pub fn reserve(&mut self, bytes: u32) -> Result<(), JournalError>
        requires { bytes ≤ 17_829_888 }
        ensures spare { OnOk result (bytes < self.new.spare) }
        ensures memory { OnErr result (result ≡ Err JournalError.Memory) }
        ensures file { self.new.file ≡ self.old.file }
        ensures items { self.new.items ≡ self.old.items }
        ensures broken { self.new.broken ≡ self.old.broken }
        ensures prepared { self.new.prepared ≡ self.old.prepared }
    {
        self.block.clear();
        self.block.reserve(bytes as usize + HEAD_SIZE)?;
        self.items.reserve(bytes as usize)?;
        self.spare = bytes as usize + 1;
        Ok(())
    }

    /// The bytes of an entry, by its number from 0.
    pub fn entry(&self, n: u32) -> &[u8]
        requires { n < length self.now.items }
        ensures { result.now ≡ slice_index_or self.now.items n [] }
    {
        self.items.get(n as usize)
    }

    /// The place of the gate of an entry, in bytes from the start of the file; behind the last entry, that of the closed gate.
    pub fn place(&self, n: u32) -> u64
        requires { n ≤ length self.now.items }
        ensures { result ≡ length (front (take n self.now.items)) }
    {
        HEADER_SIZE as u64 + HEAD_SIZE as u64 * n as u64 + self.items.size(n as usize) as u64
    }

    /// How many entries there are.
    pub fn count(&self) -> u32
        ensures value { result ≡ length self.now.items }
        ensures fits { length (front self.now.items) < 67_108_864 }
    {
        self.items.len() as u32
    }

    /// Whether the header stands, so that entries can be appended. Where it does not, there are no entries.
    pub fn is_prepared(&self) -> bool
        ensures prepared { result ≡ self.now.prepared }
        ensures blank { self.now.prepared ≡ false → self.now.items ≡ [] }
    {
        self.prepared
    }

    /// Whether a call of this value answered `Disk`, so that the file is to be opened again.
    pub fn is_broken(&self) -> bool
        ensures { result ≡ self.now.broken }
    {
        self.broken
    }
}
