// Moments by number.
ghost use Rattle.std.specs.Prelude.{◌≡◌, ◌<◌, ◌++◌, ◌∷◌, [], length, slice_index_or, slice_set, None, OnOk, OnErr};

use std::alloc::{AllocError, Global};
use std::marker::Model;

// Of each number a moment, or none, in nine bytes (an option of a moment would have sixteen). Contracts see the list.
pub(crate) struct Moments {
    there: Vec<bool>,
    // What stands for a number that has no moment plays no part.
    times: Vec<u64>,
}

// (by hand, and not by derive: so a drop is one call in the proofs of all who own one)
impl Drop for Moments {
    fn drop(self) {
        let Self { there: _, times: _ } = self;
    }
}

impl Model for Moments {
    ghost use Rattle.std.specs.Prelude.{◌≡◌, ℕ, List, Option, length};
    ghost use Rattle.base_dues.specs.Moments.{moments_of};

    ghost Value = { List (Option ℕ) };

    ghost view = { λ m. moments_of m.there.items m.times.items };

    ghost invariant = { λ m. length m.there.items ≡ length m.times.items };
}

impl Moments {
    // No number. It takes no memory.
    pub(crate) fn new(alloc: Global) -> Moments
        ensures { result ≡ [] }
    {
        Moments {
            there: Vec::new(alloc),
            times: Vec::new(alloc),
        }
    }

    pub(crate) fn len(&self) -> usize
        ensures { result ≡ length self.now }
    {
        self.there.len()
    }

    // The moment of a number; past the end of the list there is none.
    pub(crate) fn get(&self, number: usize) -> Option<u64>
        ensures { result ≡ slice_index_or self.now number None }
    {
        if number >= self.there.len() {
            return None;
        }
        if self.there[number] {
            Some(self.times[number])
        } else {
            None
        }
    }

    // Gives a number this moment, or none.
    pub(crate) fn set(&mut self, number: usize, due: Option<u64>)
        requires { number < length self.old }
        ensures { self.new ≡ slice_set self.old number due }
    {
        match due {
            Some(moment) => {
                self.there[number] = true;
                self.times[number] = moment;
            }
            None => self.there[number] = false,
        }
    }

    // Adds a number without a moment.
    pub(crate) fn push_none(&mut self) -> Result<(), AllocError>
        ensures ok { OnOk result (self.new ≡ self.old ++ None ∷ []) }
        ensures err { OnErr result (self.new ≡ self.old) }
    {
        self.times.reserve(1)?;
        self.there.push(false)?;
        self.times.push_reserved(0);
        Ok(())
    }
}
