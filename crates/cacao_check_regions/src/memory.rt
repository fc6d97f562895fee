// What was searched for already.
ghost use Rattle.std.specs.Prelude.{◌≡◌, ◌++◌, ◌∷◌, [], IfOk, OnOk, IfSome, IsTrue};
ghost use Rattle.cacao_book.specs.declared.books.Book.{Book as ABook};
ghost use Rattle.cacao_check_regions.specs.Memories.{Remembers, IsRecalled};

use crate::flaws::Flaw;
use crate::same_vars::same_kind;
use crate::searches::Searches;
use cacao_vars::{Kind, Name};
use std::alloc::{AllocError, Global};
use std::collections::BTreeMap;

/// A name and a flaw that were asked for, and where the search that serves them stands.
#[derive(Drop)]
pub(crate) struct Recall {
    pub name: Name,
    pub flaw: Flaw,
    pub search: usize,
}

/// The searches that were made in a book, what was asked for, and where that stands, by keys that `key_of` makes.
pub struct Memory {
    pub(crate) searches: Searches,
    pub(crate) recalls: Vec<Recall>,
    pub(crate) keys: BTreeMap<String, usize>,
}

// (by hand, and not by derive: so a drop is one call in the proofs of all who own one)
impl Drop for Memory {
    fn drop(self) {
        let Self {
            searches: _,
            recalls: _,
            keys: _,
        } = self;
    }
}

// A word for a kind.
fn kind_word(kind: &Kind) -> &str {
    match kind {
        Kind::String => "string",
        Kind::Bool => "bool",
        Kind::Integer => "integer",
        Kind::Long => "long",
        Kind::Ipv4Addr => "ipv4-addr",
        Kind::Ipv6Addr => "ipv6-addr",
        Kind::MacAddr => "mac-addr",
        Kind::Uri => "uri",
        Kind::Uuid => "uuid",
        Kind::Hexstring => "hexstring",
        Kind::Other(word) => word.text(),
    }
}

/// A text by which a name and a flaw are looked for. Nothing rests on it: what is found under it is compared.
pub(crate) fn key_of(alloc: Global, name: &Name, flaw: &Flaw) -> Result<String, AllocError> {
    let mut key = String::from_str(alloc, name.text())?;
    let more = match flaw {
        Flaw::Missing => "?",
        Flaw::Constant => "=",
        Flaw::Unfit(0) => "0",
        Flaw::Unfit(1) => "1",
        Flaw::Unfit(_) => "2",
        Flaw::Unlike(kind) => kind_word(kind),
    };
    key.push_str(more)?;
    Ok(key)
}

fn same_flaw(one: &Flaw, other: &Flaw) -> bool
    ensures { IsTrue result → one.now ≡ other.now }
{
    match (one, other) {
        (Flaw::Missing, Flaw::Missing) => true,
        (Flaw::Constant, Flaw::Constant) => true,
        (Flaw::Unfit(one), Flaw::Unfit(other)) => *one == *other,
        (Flaw::Unlike(one), Flaw::Unlike(other)) => same_kind(one, other),
        _ => false,
    }
}

/// The same name once more.
pub(crate) fn copy_name(name: &Name) -> Result<Name, AllocError>
    ensures { IfOk result (λ copy. copy ≡ name.now) }
{
    name.clone()
}

/// The same flaw once more.
pub(crate) fn copy_of(flaw: &Flaw) -> Result<Flaw, AllocError>
    ensures { IfOk result (λ copy. copy ≡ flaw.now) }
{
    match flaw {
        Flaw::Missing => Ok(Flaw::Missing),
        Flaw::Constant => Ok(Flaw::Constant),
        Flaw::Unfit(place) => Ok(Flaw::Unfit(*place)),
        Flaw::Unlike(kind) => Ok(Flaw::Unlike(kind.clone()?)),
    }
}

impl Memory {
    /// Nothing yet. It takes no memory.
    pub fn new(alloc: Global) -> Memory
        ensures { (book : ABook) → Remembers book result }
    {
        Memory {
            searches: Searches::new(alloc),
            recalls: Vec::new(alloc),
            keys: BTreeMap::new(alloc),
        }
    }

    /// What is remembered of a name, a flaw and the step at a place. It takes no memory.
    pub(crate) fn recalled(&self, key: &str, name: &Name, flaw: &Flaw, place: u32) -> Option<bool>
        ensures { IfSome result (λ sees. IsRecalled self.now name.now flaw.now place sees) }
    {
        let at = *self.keys.get(key)?;
        if at >= self.recalls.len() {
            return None;
        }
        let recall = &self.recalls[at];
        if recall.name != *name || !same_flaw(&recall.flaw, flaw) {
            return None;
        }
        if recall.search >= self.searches.items.len() {
            return None;
        }
        Some(self.searches.has(recall.search, place))
    }

    /// Keeps which search serves a name and a flaw.
    pub(crate) fn keep(
        &mut self,
        key: String,
        name: Name,
        flaw: Flaw,
        search: usize,
    ) -> Result<(), AllocError>
        ensures recalls { OnOk result (self.new.recalls.items ≡ self.old.recalls.items ++ record { name = name; flaw = flaw; search = search } ∷ []) }
        ensures searches { self.new.searches ≡ self.old.searches }
    {
        let at = self.recalls.len();
        self.recalls.push(Recall { name, flaw, search })?;
        self.keys.insert(key, at)?;
        Ok(())
    }
}
