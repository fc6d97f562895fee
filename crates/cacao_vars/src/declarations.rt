// Declarations of variables.
ghost use Rattle.std.specs.Prelude.{◌≡◌, ◌↔◌, [], IsTrue, IsSome, Ok, false, is_some, IfOk, OnOk, OnErr, None, insert};
ghost use Rattle.std.specs.Option.{option_copied};

use crate::kinds::Kind;
use crate::variable_names::Name;
use crate::words::Word;
use std::alloc::{AllocError, Global};
use std::cmp::Ordering;
use std::marker::Model;

/// A variable as it is declared (CACAO 2.0, section 10.18). `worth` is its value at first, where it has one.
#[derive(Clone, Drop, PartialEq, Eq)]
pub struct Var {
    pub name: Name,
    pub kind: Kind,
    pub worth: Option<Word>,
    pub constant: bool,
    pub external: bool,
}

/// Declarations of different names, in the order of the names' bytes.
pub struct Vars {
    items: Vec<Var>,
}

// (by hand, and not by derive: so a drop is one call in the proofs of all who own one)
impl Drop for Vars {
    fn drop(self) {
        let Self { items: _ } = self;
    }
}

impl Model for Vars {
    ghost use Rattle.std.specs.Prelude.{List};
    ghost use Rattle.cacao_vars.specs.declared.declarations.Var.{Var};

    ghost Value = { List Var };

    ghost use Rattle.cacao_vars.specs.Declarations.{IsInNameOrder};

    ghost view = { λ vars. vars.items.items };

    ghost invariant = { λ vars. IsInNameOrder vars.items.items };
}

mod places;

impl Vars {
    ghost use Rattle.cacao_vars.specs.Declarations.{IsInNameOrder, declared, inserted};

    /// No declarations. It takes no memory.
    pub fn new(alloc: Global) -> Vars
        ensures { result ≡ [] }
    {
        Vars {
            items: Vec::new(alloc),
        }
    }

    /// The declarations over this list, which it keeps. It takes no memory.
    pub fn from_vec(items: Vec<Var>) -> Vars
        requires { IsInNameOrder items.items }
        ensures { result ≡ items.items }
    {
        Vars { items }
    }

    /// Gives the list back. It takes no memory.
    pub fn into_vec(self) -> Vec<Var>
        ensures items { result.items ≡ self }
        ensures order { IsInNameOrder self }
    {
        let Vars { items } = self;
        items
    }

    /// The declarations in the order of their names.
    pub fn as_slice(&self) -> &[Var]
        ensures items { result.now ≡ self.now }
        ensures order { IsInNameOrder self.now }
    {
        self.items.as_slice()
    }

    /// Adds a declaration in its place and answers true. Where its name is declared it changes nothing and
    /// answers false, and takes no memory.
    pub fn insert(&mut self, var: Var) -> Result<bool, AllocError>
        ensures ok { OnOk result (self.new ≡ inserted self.old var) }
        ensures added { IfOk result (λ added. IsTrue added ↔ (declared self.old var.name ≡ None)) }
        ensures kept { IsSome (declared self.old var.name) → result ≡ Ok false }
        ensures err { OnErr result (self.new ≡ self.old) }
    {
        if self.declares(&var.name) {
            return Ok(false);
        }
        let place = places::place_of(self.items.as_slice(), &var.name);
        self.items.insert(place, var)?;
        Ok(true)
    }

    /// Whether a name is declared. It takes no memory.
    pub fn declares(&self, name: &Name) -> bool
        ensures { result ≡ is_some (declared self.now name.now) }
    {
        self.find(name).is_some()
    }

    /// The declaration of a name. It takes no memory.
    pub fn find(&self, name: &Name) -> Option<&Var>
        ensures { option_copied result ≡ declared self.now name.now }
    {
        self.find_bytes(name.text().as_bytes())
    }

    /// The declaration of the name with these bytes. It takes no memory.
    pub fn find_bytes(&self, name: &[u8]) -> Option<&Var>
        ensures { option_copied result ≡ declared self.now name.now }
    {
        places::find_in(self.items.as_slice(), name)
    }
}

impl Clone for Vars {
    ghost is_clone = { λ vars copy. copy ≡ vars };

    fn clone(&self) -> Result<Vars, AllocError> {
        let items = self.items.clone()?;
        Ok(Vars { items })
    }
}
