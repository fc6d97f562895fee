// The present texts of the names of a scope.
ghost use Rattle.std.specs.Prelude.{◌≡◌, [], IfOk, OnOk};
ghost use Rattle.std.specs.BTreeMap.{insert_entry};
ghost use Rattle.std.specs.Option.{option_copied};
ghost use Rattle.std.specs.Cmp.Lexicographic.{slice_cmp};
ghost use Rattle.std.specs.List.Sorted.{IsStrictlySortedBy};
ghost use Rattle.std.specs.Map.{keys_of};
ghost use Rattle.std.specs.Ordering.{nat_cmp};
ghost use Rattle.flow_core_tables.specs.Present.{set_in};
ghost use Rattle.flow_core_rules.specs.State.{text_in};
ghost use Rattle.flow_core_rules.specs.Edits.{declared_texts, with_text};

use cacao_vars::{Name, Var, Vars, Word};
use std::alloc::{AllocError, Global};
use std::collections::BTreeMap;
use std::marker::Model;
use std::mem;

/// The names that a scope declares, each with its present text; `None` where it is unset. Contracts see them as the
/// list of its entries in the order of the names.
#[derive(Drop)]
pub struct Present {
    map: BTreeMap<Name, Option<Word>>,
}

impl Model for Present {
    ghost use Rattle.std.specs.Prelude.{List, ℕ, Option};

    ghost Value = { List (List ℕ × Option (List ℕ)) };

    ghost view = { λ p. p.map.entries };
}

// A copy of a text, if there is one.
fn copied(worth: &Option<Word>) -> Result<Option<Word>, AllocError>
    ensures { IfOk result (λ copy. copy ≡ worth.now) }
{
    match worth {
        Some(text) => Ok(Some(text.clone()?)),
        None => Ok(None),
    }
}

// Adds a name with its declared text.
fn add_declared(map: &mut BTreeMap<Name, Option<Word>>, var: &Var) -> Result<(), AllocError>
    ensures { OnOk result (map.new.entries ≡ insert_entry (slice_cmp nat_cmp) map.old.entries var.now.name var.now.worth) }
{
    let name = var.name.clone()?;
    let worth = copied(&var.worth)?;
    map.insert(name, worth)?;
    Ok(())
}

impl Present {
    /// The texts of a scope that declares no name. It takes no memory.
    pub(crate) fn none(alloc: Global) -> Present
        ensures { result ≡ [] }
    {
        Present {
            map: BTreeMap::new(alloc),
        }
    }

    /// The declared texts.
    pub fn declared(alloc: Global, vars: &Vars) -> Result<Present, AllocError>
        ensures { IfOk result (λ p. p ≡ declared_texts vars.now) }
    {
        let mut map = BTreeMap::new(alloc);
        let items = vars.as_slice();
        for var in items {
            add_declared(&mut map, var)?;
        }
        Ok(Present { map })
    }

    /// The text of a name, where it is declared and set. It takes no memory.
    #[tactic(auto, using(crate::proofs::PresentLemmas::entry_is_text))]
    pub fn look(&self, name: &Name) -> Option<&Word>
        ensures { option_copied result ≡ text_in self.now name.now }
    {
        match self.map.get(name) {
            Some(text) => text.as_ref(),
            None => None,
        }
    }

    // The same as the map has it.
    #[tactic(auto, using(crate::proofs::PresentLemmas::set_value_none))]
    fn put(&mut self, name: &Name, worth: Word)
        ensures set { self.new ≡ set_in self.old name.now worth }
        ensures ordered { IsStrictlySortedBy (slice_cmp nat_cmp) (keys_of self.old) }
    {
        let Some(text) = self.map.get_mut(name) else {
            return;
        };
        let _old = mem::replace(text, Some(worth));
    }

    /// Puts a text in the place of the present one. It takes no memory.
    #[tactic(auto, using(crate::proofs::PresentLemmas::set_is_with))]
    pub fn write(&mut self, name: &Name, worth: Word)
        ensures { self.new ≡ with_text name.now worth self.old }
    {
        self.put(name, worth);
    }

    /// The names with their texts.
    pub fn as_map(&self) -> &BTreeMap<Name, Option<Word>>
        ensures { result.now.entries ≡ self.now }
    {
        &self.map
    }
}
