// Sets of places, a bit for each.
ghost use Rattle.std.specs.Prelude.{◌≡◌, ◌<◌, ◌≤◌, [], length, replicate, slice_set, slice_index_or, IfOk, false, true};

use std::alloc::{AllocError, Global};
use std::marker::Model;

/// A set of places below a length: a mark for each place that says whether it stands in the set, kept as 64 marks in a word.
#[derive(Drop)]
pub struct Bits {
    count: usize,
    words: Vec<u64>,
}

impl Model for Bits {
    ghost use Rattle.std.specs.Prelude.{List, Bool};

    ghost Value = { List Bool };

    ghost use Rattle.base_graphs.specs.Words.{marks_of};

    ghost view = { λ bits. marks_of bits.count bits.words.items };

    ghost use Rattle.std.specs.Prelude.{◌≤◌, ◌*◌, length};

    ghost invariant = { λ bits. bits.count ≤ 64 * length bits.words.items };
}

fn zeroes(alloc: Global, count: usize) -> Result<Vec<u64>, AllocError>
    ensures { IfOk result (λ words. words.items ≡ replicate count 0) }
{
    vec![in alloc; 0; count]
}

fn ones(alloc: Global, count: usize) -> Result<Vec<u64>, AllocError>
    ensures { IfOk result (λ words. words.items ≡ replicate count 18446744073709551615) }
{
    vec![in alloc; u64::MAX; count]
}

impl Bits {
    /// The empty set over no places. It takes no memory.
    pub fn new(alloc: Global) -> Bits
        ensures { result ≡ [] }
    {
        Bits {
            count: 0,
            words: Vec::new(alloc),
        }
    }

    /// The empty set over so many places.
    pub fn unmarked(alloc: Global, count: usize) -> Result<Bits, AllocError>
        ensures { IfOk result (λ bits. bits ≡ replicate count false) }
    {
        let words = zeroes(alloc, count / 64 + 1)?;
        Ok(Bits { count, words })
    }

    /// The set of all of so many places.
    pub fn full(alloc: Global, count: usize) -> Result<Bits, AllocError>
        ensures { IfOk result (λ bits. bits ≡ replicate count true) }
    {
        let words = ones(alloc, count / 64 + 1)?;
        Ok(Bits { count, words })
    }

    /// Whether a place stands in the set. It takes no memory.
    pub fn has(&self, place: u32) -> bool
        ensures { result ≡ slice_index_or self.now place false }
    {
        let at = place as usize;
        at < self.count && (self.words[at / 64] >> (at % 64)) & 1 == 1
    }

    /// Puts a place into the set.
    pub fn mark(&mut self, place: u32)
        requires { place < length self.old }
        ensures { self.new ≡ slice_set self.old place true }
    {
        let at = place as usize;
        self.words[at / 64] |= 1 << (at % 64);
    }
}
