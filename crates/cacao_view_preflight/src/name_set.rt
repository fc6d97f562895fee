// Sets of names.
use cacao_json::Pair;
use cacao_vars::Name;
use std::alloc::{AllocError, Global};
use std::collections::BTreeSet;

/// Names, of which each stands at most once.
#[derive(Drop)]
pub(crate) struct NameSet {
    names: BTreeSet<String>,
}

impl NameSet {
    ghost use Rattle.std.specs.Prelude.{◌≡◌, ◌||◌, ◌++◌, List, OnOk, IfOk, false, map};
    ghost use Rattle.std.specs.Str.{bytes_eq};
    ghost use Rattle.cacao_view_preflight.specs.NameSets.{HasJust, holds};
    ghost use Rattle.cacao_json.specs.Tree.{pair_data};
    ghost use Rattle.cacao_view_preflight.specs.Warnings.{Text as AText, names_of};

    /// No names. It takes no memory.
    pub(crate) fn new(alloc: Global) -> NameSet
        ensures { (name : AText) → holds result name ≡ false }
    {
        NameSet {
            names: BTreeSet::new(alloc),
        }
    }

    /// Whether a name is among them. It takes no memory.
    pub(crate) fn has(&self, name: &str) -> bool
        ensures { result ≡ holds self.now name.now }
    {
        self.names.contains(name)
    }

    /// Adds a name.
    pub(crate) fn add(&mut self, alloc: Global, name: &str) -> Result<(), AllocError>
        ensures { OnOk result ((other : AText) → holds self.new other ≡ (bytes_eq name.now other || holds self.old other)) }
    {
        let name = String::from_str(alloc, name)?;
        self.names.insert(name)?;
        Ok(())
    }

    /// Adds these names of variables.
    pub(crate) fn add_all(&mut self, alloc: Global, names: &[Name]) -> Result<(), AllocError>
        ensures { OnOk result ((all : List AText) → HasJust self.old all → HasJust self.new (all ++ names.now)) }
    {
        for name in names {
            self.add(alloc, name.text())?;
        }
        Ok(())
    }

    /// The names of these members.
    pub(crate) fn of_members(alloc: Global, members: &[Pair]) -> Result<NameSet, AllocError>
        ensures { IfOk result (λ set. HasJust set (names_of (map pair_data members.now))) }
    {
        let mut set = NameSet::new(alloc);
        for pair in members {
            set.add(alloc, pair.name.text())?;
        }
        Ok(set)
    }
}
