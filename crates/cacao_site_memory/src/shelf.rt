// A shelf in memory, which can fail at one call.
ghost use Rattle.std.specs.Prelude.{◌≡◌, ◌≢◌, ◌↔◌, ◌-◌, ◌<◌, ◌≤◌, ℕ, List, Option, OnOk, OnErr, Some, None, IfOk, IfErr, IsSomeAnd, IsErrOf, IsTrue, length};
ghost use Rattle.cacao_site.specs.Counts.{next_count};

use cacao_site::{Bytes, Shelf, ShelfError};
use std::alloc::{AllocError, Global};
use std::collections::BTreeMap;

/// A shelf that tells its files, and fails at the one call that it is told.
#[derive(Drop)]
pub struct MemoryShelf {
    alloc: Global,
    files: BTreeMap<String, Bytes>,
    failing: Option<u32>,
    calls: u64,
    faults: u64,
}

impl MemoryShelf {
    ghost use Rattle.cacao_site_memory.specs.MemoryShelf.{files_of, failing_of, calls_of, faults_of};

    /// A shelf with no file, which fails at no call. Takes no memory.
    pub fn new(alloc: Global) -> MemoryShelf
        ensures blank { (name : List ℕ) → files_of result name ≡ None }
        ensures failing { failing_of result ≡ None }
        ensures calls { calls_of result ≡ 0 }
        ensures faults { faults_of result ≡ 0 }
    {
        MemoryShelf {
            alloc,
            files: BTreeMap::new(alloc),
            failing: None,
            calls: 0,
            faults: 0,
        }
    }

    /// Puts a file with these bytes on the shelf, in place of one that has the same name.
    pub fn add(&mut self, name: &str, bytes: &[u8]) -> Result<(), AllocError>
        ensures held { OnOk result (files_of self.new name.now ≡ Some bytes.now) }
        ensures others { (other : List ℕ) → other ≢ name.now → files_of self.new other ≡ files_of self.old other }
        ensures err { OnErr result ((other : List ℕ) → files_of self.new other ≡ files_of self.old other) }
        ensures failing { failing_of self.new ≡ failing_of self.old }
        ensures calls { calls_of self.new ≡ calls_of self.old }
        ensures faults { faults_of self.new ≡ faults_of self.old }
    {
        let bytes = Bytes::from_slice(self.alloc, bytes)?;
        let name = String::from_str(self.alloc, name)?;
        self.files.insert(name, bytes)?;
        Ok(())
    }

    /// Lets the call of this number fail, counted from 0, in place of the one named before.
    pub fn fail_at(&mut self, call: u32)
        ensures failing { failing_of self.new ≡ Some call }
        ensures files { files_of self.new ≡ files_of self.old }
        ensures calls { calls_of self.new ≡ calls_of self.old }
        ensures faults { faults_of self.new ≡ faults_of self.old }
    {
        self.failing = Some(call);
    }

    fn is_failing(&self) -> bool
        ensures { IsTrue result ↔ (failing_of self.now ≡ Some (calls_of self.now)) }
    {
        match self.failing {
            Some(call) => u64::from(call) == self.calls,
            None => false,
        }
    }
}

impl Shelf for MemoryShelf {
    ghost use Rattle.std.specs.Prelude.{Some};
    ghost use Rattle.cacao_site_memory.specs.MemoryShelf.{files_of, failing_of, calls_of, faults_of};

    ghost told = { λ s. Some (files_of s) };

    ghost faults = { faults_of };

    ghost reads = { λ s. Some (calls_of s) };

    /// The file, or `Failed` exactly at the call that was named.
    fn read(&mut self, alloc: Global, name: &str, most: u32) -> Result<Bytes, ShelfError>
        ensures whole { IfOk result (λ bytes. files_of self.old name.now ≡ Some bytes) }
        ensures at_most { IfOk result (λ bytes. length bytes ≤ most) }
        ensures missing { IsErrOf result ShelfError.Missing → files_of self.old name.now ≡ None }
        ensures too_large { IsErrOf result ShelfError.TooLarge
            → IsSomeAnd (files_of self.old name.now) (λ bytes. most < length bytes) }
        ensures failed { IsErrOf result ShelfError.Failed → faults_of self.new ≡ next_count (faults_of self.old) }
        ensures steady { OnOk result (faults_of self.new ≡ faults_of self.old) }
        ensures others { IfErr result (λ e. e ≢ ShelfError.Failed → faults_of self.new ≡ faults_of self.old) }
        ensures by_plan { IsErrOf result ShelfError.Failed ↔ (failing_of self.old ≡ Some (calls_of self.old)) }
        ensures stays { Some (files_of self.new) ≡ Some (files_of self.old) }
        ensures counts { faults_of self.old ≤ faults_of self.new }
        ensures failing { failing_of self.new ≡ failing_of self.old }
        ensures calls { calls_of self.new ≡ next_count (calls_of self.old) }
    {
        let failing = self.is_failing();
        self.calls = self.calls.saturating_add(1);
        if failing {
            self.faults = self.faults.saturating_add(1);
            return Err(ShelfError::Failed);
        }
        let Some(found) = self.files.get(name) else {
            return Err(ShelfError::Missing);
        };
        if found.len() > most as usize {
            return Err(ShelfError::TooLarge);
        }
        Ok(found.copy(alloc)?)
    }
}
