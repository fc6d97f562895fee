// The scopes that a run opened, with the present texts of each.
ghost use Rattle.std.specs.Prelude.{◌≡◌, ◌+◌, ◌<◌, ◌≤◌, ◌++◌, ◌∷◌, [], length, option_map, slice_get, IfSome, OnOk};
ghost use Rattle.std.specs.Option.{option_copied};
ghost use Rattle.cacao_vars.specs.Scopes.{HasParentsBefore, declaration, home, home_declaration, parent_of};
ghost use Rattle.flow_core_rules.specs.Edits.{changed_at, declared_texts, with_text};
ghost use Rattle.flow_core_tables.specs.Opened.{blank_scope};

use crate::present::Present;
use cacao_vars::{Name, Scope, Var, Word};
use std::alloc::{AllocError, Global};
use std::marker::Model;

/// What stands for a scope.
#[derive(Clone, Copy)]
pub(crate) enum Place {
    /// It declares nothing, and is inside this scope.
    Inside(u32),
    /// It is kept, with this number.
    Keeps(u32),
}

/// The scopes that a run opened, numbered from 0, with the present texts of each. Contracts see them as two lists, and the
/// number of scopes for which there is room. A scope that declares nothing inside another one takes eight bytes.
pub struct Opened {
    places: Vec<Place>,
    // The others, and their texts.
    scopes: Vec<Scope>,
    texts: Vec<Present>,
    // The texts of a scope that declares nothing.
    none: Present,
    room: u32,
}

// (by hand, and not by derive: so a drop is one call in the proofs of all who own one)
impl Drop for Opened {
    fn drop(self) {
        let Self {
            places: _,
            scopes: _,
            texts: _,
            none: _,
            room: _,
        } = self;
    }
}

impl Model for Opened {
    ghost use Rattle.flow_core_tables.specs.OpenedView.{OpenedView};

    ghost Value = { OpenedView };

    ghost use Rattle.flow_core_tables.specs.Opened.{opened_view, IsOpened};

    ghost view = { opened_view };

    ghost invariant = { IsOpened };
}

// The scope around this one, where that is there and this one declares nothing.
fn around_blank(scope: &Scope) -> Option<u32>
    ensures { IfSome result (λ around. scope.now ≡ blank_scope around) }
{
    if scope.vars.as_slice().is_empty() {
        scope.parent
    } else {
        None
    }
}

impl Opened {
    /// No scope. It takes no memory.
    pub fn new(alloc: Global) -> Opened
        ensures scopes { result.scopes ≡ [] }
        ensures texts { result.texts ≡ [] }
        ensures room { result.room ≡ 0 }
    {
        Opened {
            places: Vec::new(alloc),
            scopes: Vec::new(alloc),
            texts: Vec::new(alloc),
            none: Present::none(alloc),
            room: 0,
        }
    }

    /// How many scopes there are.
    pub fn len(&self) -> usize
        ensures scopes { result ≡ length self.now.scopes }
        ensures texts { result ≡ length self.now.texts }
    {
        self.places.len()
    }

    /// Takes the room for so many scopes more. What is there stays.
    pub fn reserve(&mut self, more: u32) -> Result<(), AllocError>
        ensures scopes { self.new.scopes ≡ self.old.scopes }
        ensures texts { self.new.texts ≡ self.old.texts }
        ensures room { self.old.room ≤ self.new.room }
        ensures ok { OnOk result (length self.old.scopes + more ≤ self.new.room) }
    {
        let count = self.places.len() as u32;
        let Some(room) = count.checked_add(more) else {
            return Err(AllocError);
        };
        if room <= self.room {
            return Ok(());
        }
        self.places.reserve(more as usize)?;
        self.scopes.reserve(more as usize)?;
        self.texts.reserve(more as usize)?;
        self.room = room;
        Ok(())
    }

    /// Opens a scope, in memory that was taken before.
    pub(crate) fn push(&mut self, scope: Scope, texts: Present)
        requires declared { texts ≡ declared_texts scope.vars }
        requires room { length self.old.scopes < self.old.room }
        ensures scopes { self.new.scopes ≡ self.old.scopes ++ scope ∷ [] }
        ensures texts { self.new.texts ≡ self.old.texts ++ texts ∷ [] }
        ensures room { self.new.room ≡ self.old.room }
    {
        match around_blank(&scope) {
            Some(around) => self.places.push_reserved(Place::Inside(around)),
            None => {
                let number = self.scopes.len() as u32;
                self.scopes.push_reserved(scope);
                self.texts.push_reserved(texts);
                self.places.push_reserved(Place::Keeps(number));
            }
        }
    }

    /// Puts a text in the place of the present one of a name in a scope. It takes no memory.
    pub(crate) fn write(&mut self, scope: u32, name: &Name, worth: Word)
        requires { scope < length self.old.texts }
        ensures scopes { self.new.scopes ≡ self.old.scopes }
        ensures texts { self.new.texts ≡ changed_at scope (with_text name.now worth) self.old.texts }
        ensures room { self.new.room ≡ self.old.room }
    {
        match self.places[scope as usize] {
            Place::Keeps(number) => self.texts[number as usize].write(name, worth),
            Place::Inside(_) => {}
        }
    }

    /// The present texts of a scope. It takes no memory.
    pub fn texts(&self, scope: u32) -> Option<&Present>
        ensures { option_copied result ≡ slice_get self.now.texts scope }
    {
        match self.places.get(scope as usize) {
            Some(place) => match *place {
                Place::Keeps(number) => Some(&self.texts[number as usize]),
                Place::Inside(_) => Some(&self.none),
            },
            None => None,
        }
    }

    // What a scope itself declares of the name with these bytes.
    fn declaration(&self, scope: u32, name: &[u8]) -> Option<&Var>
        ensures { option_copied result ≡ declaration self.now.scopes scope name.now }
    {
        match self.places.get(scope as usize) {
            Some(place) => match *place {
                Place::Keeps(number) => self.scopes[number as usize].vars.find_bytes(name),
                Place::Inside(_) => None,
            },
            None => None,
        }
    }

    // The scope around a scope.
    fn parent(&self, scope: u32) -> Option<u32>
        requires { scope < length self.now.scopes }
        ensures { result ≡ parent_of self.now.scopes scope }
    {
        match self.places[scope as usize] {
            Place::Inside(around) => Some(around),
            Place::Keeps(number) => self.scopes[number as usize].parent,
        }
    }

    /// The first scope that declares the name with these bytes, from this one along the parents, and what it declares of it. It
    /// takes no memory.
    pub fn find(&self, scope: u32, name: &[u8]) -> Option<(u32, &Var)>
        requires scope { scope < length self.now.scopes }
        requires parents { HasParentsBefore self.now.scopes }
        ensures home { option_map (λ found. found.0) result ≡ home self.now.scopes scope name.now }
        ensures declaration { option_map (λ found. found.1.now) result ≡ home_declaration self.now.scopes scope name.now }
        ensures exists { IfSome (home self.now.scopes scope name.now) (λ at. at < length self.now.scopes) }
    {
        let mut at = scope;
        'outward: loop {
            match self.declaration(at, name) {
                Some(var) => return Some((at, var)),
                None => match self.parent(at) {
                    Some(around) => at = around,
                    None => return None,
                },
            }
        }
    }
}
