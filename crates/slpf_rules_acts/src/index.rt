// Where the act of a run and an issue stands.
ghost use Rattle.std.specs.Prelude.{◌≡◌, ◌==◌, ◌&&◌, ℕ, [], Some, None, OnOk, OnErr, if◌then◌else◌};
ghost use Rattle.slpf_rules_acts.specs.Index.{place_in};

use std::alloc::{AllocError, Global};
use std::collections::BTreeMap;
use std::marker::Model;

/// Places in a list of acts, counted from 0, by run and issue.
#[derive(Drop)]
pub struct ActIndex {
    places: BTreeMap<(u64, u32), usize>,
}

impl Model for ActIndex {
    ghost use Rattle.std.specs.Prelude.{List, ℕ};

    ghost Value = { List ((ℕ × ℕ) × ℕ) };

    ghost view = { λ index. index.places.entries };
}

impl ActIndex {
    /// No place. It takes no memory.
    pub fn new(alloc: Global) -> ActIndex
        ensures { result ≡ [] }
    {
        ActIndex {
            places: BTreeMap::new(alloc),
        }
    }

    /// The place kept for a run and an issue. It takes no memory.
    pub fn find(&self, run: u64, issue: u32) -> Option<usize>
        ensures { result ≡ place_in self.now run issue }
    {
        self.places.get(&(run, issue)).copied()
    }

    /// Keeps a place. Nothing changes where memory is wanted.
    pub fn insert(&mut self, run: u64, issue: u32, place: usize) -> Result<(), AllocError>
        ensures ok { OnOk result ((r i : ℕ) → place_in self.new r i
            ≡ (if run == r && issue == i then Some place else place_in self.old r i)) }
        ensures err { OnErr result (self.new ≡ self.old) }
    {
        self.places.insert((run, issue), place)?;
        Ok(())
    }

    /// Forgets a place. It takes no memory.
    pub fn remove(&mut self, run: u64, issue: u32)
        ensures { (r i : ℕ) → place_in self.new r i ≡ (if run == r && issue == i then None else place_in self.old r i) }
    {
        self.places.remove(&(run, issue));
    }
}
