// Lists of bytes, one behind another.
ghost use Rattle.std.specs.Prelude.{◌≡◌, ◌+◌, ◌-◌, ◌<◌, ◌≤◌, ◌++◌, ◌∷◌, [], length, take, drop, slice_index_or, OnOk};
ghost use Rattle.run_journal.specs.PackedView.{total};

use std::alloc::{AllocError, Global};
use std::marker::Model;

/// Lists of bytes, one behind another in one piece of memory.
///
/// The places where they end lie in another, four bytes each, so that all lists together have less than 2^32 bytes.
#[derive(Drop)]
pub struct Packed {
    bytes: Vec<u8>,
    // The place behind the last byte of each list, in bytes from the start of the first.
    ends: Vec<u32>,
}

impl Model for Packed {
    ghost use Rattle.run_journal.specs.PackedView.{PackedView};

    ghost Value = { PackedView };

    ghost use Rattle.run_journal.specs.Packed.{packed_view, IsPacked};

    ghost view = { packed_view };

    ghost invariant = { IsPacked };
}

impl Packed {
    /// No list. Takes no memory.
    pub fn new(alloc: Global) -> Packed
        ensures { result.items ≡ [] }
    {
        Packed {
            bytes: Vec::new(alloc),
            ends: Vec::new(alloc),
        }
    }

    /// How many lists there are.
    pub fn len(&self) -> usize
        ensures { result ≡ length self.now.items }
    {
        self.ends.len()
    }

    /// How many bytes the first `n` lists have together.
    pub fn size(&self, n: usize) -> usize
        requires { n ≤ length self.now.items }
        ensures { result ≡ total (take n self.now.items) }
    {
        if n == 0 {
            return 0;
        }
        self.ends[n - 1] as usize
    }

    /// The list with this number, from 0.
    pub fn get(&self, n: usize) -> &[u8]
        requires { n < length self.now.items }
        ensures { result.now ≡ slice_index_or self.now.items n [] }
    {
        let start = self.size(n);
        let end = self.ends[n] as usize;
        between(self.bytes.as_slice(), start, end)
    }

    /// Makes the room that one more list of at most so many bytes needs.
    pub fn reserve(&mut self, bytes: usize) -> Result<(), AllocError>
        ensures items { self.new.items ≡ self.old.items }
        ensures place { OnOk result (0 < self.new.places) }
        ensures room { OnOk result (bytes ≤ self.new.room) }
        ensures no_place_lost { self.old.places ≤ self.new.places }
        ensures no_room_lost { self.old.room ≤ self.new.room }
    {
        self.ends.reserve(1)?;
        self.bytes.reserve(bytes)?;
        Ok(())
    }

    /// Adds a copy of a list at the end, in memory that was taken before.
    pub fn push_reserved(&mut self, item: &[u8])
        requires place { 0 < self.old.places }
        requires room { length item.now ≤ self.old.room }
        requires fits { total self.old.items + length item.now < 4_294_967_296 }
        ensures { self.new.items ≡ self.old.items ++ item.now ∷ [] }
    {
        self.bytes.extend_from_slice(item).unwrap();
        let end = self.bytes.len() as u32;
        self.ends.push_reserved(end);
    }

    /// Adds a copy of a list at the end.
    pub fn push(&mut self, item: &[u8]) -> Result<(), AllocError>
        requires { total self.old.items + length item.now < 4_294_967_296 }
        ensures { OnOk result (self.new.items ≡ self.old.items ++ item.now ∷ []) }
    {
        self.reserve(item.len())?;
        self.push_reserved(item);
        Ok(())
    }
}

/// The bytes from one place up to another.
fn between(bytes: &[u8], start: usize, end: usize) -> &[u8]
    requires order { start ≤ end }
    requires within { end ≤ length bytes.now }
    ensures { result.now ≡ take (end - start) (drop start bytes.now) }
{
    &bytes[start..end]
}
