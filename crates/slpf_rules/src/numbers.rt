// Lists of rule numbers.
ghost use Rattle.std.specs.Prelude.{◌≡◌, ◌==◌, ℕ, [], length, OnOk, OnErr};
ghost use Rattle.std.specs.Ordering.{nat_cmp};
ghost use Rattle.std.specs.BTreeSet.{insert_key};
ghost use Rattle.std.specs.Set.{remove_key};
ghost use Rattle.std.specs.BTreeMap.{is_at};
ghost use Rattle.std.specs.Map.Iter.{ShowsInOrder, deref};

use std::alloc::{AllocError, Global};
use std::collections::BTreeSet;
use std::collections::btree_set::Iter;
use std::marker::Model;

/// Rule numbers, rising.
#[derive(Drop)]
pub struct Numbers {
    numbers: BTreeSet<u32>,
}

impl Model for Numbers {
    ghost use Rattle.std.specs.Prelude.{List, ℕ};
    ghost use Rattle.std.specs.BTreeSet.{keys};

    ghost Value = { List ℕ };

    ghost view = { λ n. keys n.numbers };
}

impl Numbers {
    /// No number. Takes no memory.
    pub fn new(alloc: Global) -> Numbers
        ensures { result ≡ [] }
    {
        Numbers {
            numbers: BTreeSet::new(alloc),
        }
    }

    /// How many numbers there are.
    pub fn len(&self) -> usize
        ensures { result ≡ length self.now }
    {
        self.numbers.len()
    }

    /// Whether there is none.
    pub fn is_empty(&self) -> bool
        ensures { result ≡ (length self.now == 0) }
    {
        self.numbers.len() == 0
    }

    /// The numbers, rising. It takes no memory.
    pub fn iter(&self) -> Iter<'_, u32>
        ensures rest { result ≡ self.now }
        ensures runs { ShowsInOrder (deref {X = ℕ}) }
    {
        self.numbers.iter()
    }

    /// Puts a number at its place in the order. It stays once where it is there.
    pub(crate) fn insert(&mut self, number: u32) -> Result<(), AllocError>
        ensures ok { OnOk result (self.new ≡ insert_key nat_cmp self.old number) }
        ensures err { OnErr result (self.new ≡ self.old) }
    {
        self.numbers.insert(number)?;
        Ok(())
    }

    /// Takes a number out, if it is there.
    pub(crate) fn remove(&mut self, number: u32)
        ensures { self.new ≡ remove_key (is_at (nat_cmp number)) self.old }
    {
        self.numbers.remove(&number);
    }
}
