// Searches that were made, by where the declarations of a name stand.
ghost use Rattle.std.specs.Prelude.{◌≡◌, ◌++◌, ◌∷◌, ◌<◌, [], length, IfOk, OnOk, IfSome, IsSomeAnd, IsTrue, slice_get, slice_index_or, false};

use base_graphs::{Bits, Places};
use std::alloc::{AllocError, Global};
use std::collections::BTreeMap;

/// Where a name is declared, seen by a flaw: by the steps at the places `declaring`, with the flaw by those at the places `flawed`.
/// `at_start` says whether what the book has of the name has the flaw.
#[derive(Drop)]
pub(crate) struct Sources {
    pub declaring: Places,
    pub flawed: Places,
    pub at_start: bool,
}

/// A search that was made: of a name and a flaw with these sources, the steps at the marked places see something that has the flaw.
#[derive(Drop)]
pub(crate) struct Search {
    pub sources: Sources,
    pub marks: Bits,
}

/// The searches that were made in a book, and where they stand, by keys that `sources_key` makes.
#[derive(Drop)]
pub(crate) struct Searches {
    pub items: Vec<Search>,
    pub keys: BTreeMap<Vec<u32>, usize>,
}

/// A list by which a search is looked for. Nothing rests on it: what is found under it is compared.
pub(crate) fn sources_key(alloc: Global, sources: &Sources) -> Result<Vec<u32>, AllocError> {
    let mut key = Vec::new(alloc);
    key.push(u32::from(sources.at_start))?;
    key.extend_from_slice(sources.flawed.as_slice())?;
    key.push(u32::MAX)?;
    key.extend_from_slice(sources.declaring.as_slice())?;
    Ok(key)
}

fn same_places(one: &[u32], other: &[u32]) -> bool
    ensures { IsTrue result → one.now ≡ other.now }
{
    one == other
}

fn same_sources(one: &Sources, other: &Sources) -> bool
    ensures { IsTrue result → one.now ≡ other.now }
{
    one.at_start == other.at_start
        && same_places(one.flawed.as_slice(), other.flawed.as_slice())
        && same_places(one.declaring.as_slice(), other.declaring.as_slice())
}

impl Searches {
    /// None yet. It takes no memory.
    pub(crate) fn new(alloc: Global) -> Searches
        ensures { result.items.items ≡ [] }
    {
        Searches {
            items: Vec::new(alloc),
            keys: BTreeMap::new(alloc),
        }
    }

    /// Where a search with these sources stands, if it was made. It takes no memory.
    pub(crate) fn find(&self, key: &[u32], sources: &Sources) -> Option<usize>
        ensures { IfSome result (λ at. IsSomeAnd (slice_get self.now.items.items at) (λ search. search.sources ≡ sources.now)) }
    {
        let at = *self.keys.get(key)?;
        let search = self.items.get(at)?;
        if !same_sources(&search.sources, sources) {
            return None;
        }
        Some(at)
    }

    /// Whether the search at a place of the list marks the step at a place. It takes no memory.
    pub(crate) fn has(&self, at: usize, place: u32) -> bool
        requires { at < length self.now.items.items }
        ensures { IsSomeAnd (slice_get self.now.items.items at) (λ search. result ≡ slice_index_or search.marks place false) }
    {
        self.items[at].marks.has(place)
    }

    /// Keeps a search, and answers where it stands.
    pub(crate) fn keep(
        &mut self,
        key: Vec<u32>,
        sources: Sources,
        marks: Bits,
    ) -> Result<usize, AllocError>
        ensures at { IfOk result (λ at. at ≡ length self.old.items.items) }
        ensures items { OnOk result (self.new.items.items ≡ self.old.items.items ++ record { sources = sources; marks = marks } ∷ []) }
    {
        let at = self.items.len();
        self.items.push(Search { sources, marks })?;
        self.keys.insert(key, at)?;
        Ok(at)
    }
}
