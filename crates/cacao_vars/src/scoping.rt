// Scopes.
ghost use Rattle.std.specs.Prelude.{◌≡◌, ◌↔◌, ◌<◌, [], IfOk, OnOk, OnErr, IsErrOf, IsSomeAnd, None, Some, length};
ghost use Rattle.std.specs.Option.{option_copied, ForSome};
ghost use Rattle.cacao_vars.specs.declared.scoping.ScopeError.TheVariants as scope_error;

use crate::declarations::{Var, Vars};
use crate::variable_names::Name;
use crate::words::Word;
use std::alloc::{AllocError, AllocFailed, Global};
use std::marker::Model;
use thiserror::Error;

/// A scope: the scope around it, if there is one, and what it declares.
#[derive(Drop)]
pub struct Scope {
    pub parent: Option<u32>,
    pub vars: Vars,
}

/// A write: where, to which name, and the text.
#[derive(Drop)]
pub struct Write {
    pub scope: u32,
    pub name: Name,
    pub worth: Word,
}

/// Why a name was not written.
#[derive(Clone, Copy, Debug, Drop, Error, PartialEq, Eq)]
pub enum ScopeError {
    #[error("unknown variable")]
    Unknown,
    #[error("constant variable")]
    Constant,
    #[error("out of memory")]
    Memory,
}

impl From<AllocError> for ScopeError {
    ghost from_gives = { λ _ e. e ≡ scope_error.Memory };

    fn from(_: AllocError) -> ScopeError {
        ScopeError::Memory
    }
}

impl<T: Drop> From<AllocFailed<T>> for ScopeError {
    ghost from_gives = { λ _ e. e ≡ scope_error.Memory };

    fn from(_: AllocFailed<T>) -> ScopeError {
        ScopeError::Memory
    }
}

/// Scopes, numbered from 0, and the list of all writes. Those around a scope are earlier than it.
#[derive(Drop)]
pub struct Scopes {
    scopes: Vec<Scope>,
    writes: Vec<Write>,
}

impl Model for Scopes {
    ghost use Rattle.cacao_vars.specs.Scopes.{Contents, HasParentsBefore};

    ghost Value = { Contents };

    ghost view = { λ s. record { scopes = s.scopes.items; writes = s.writes.items } };

    ghost invariant = { λ s. HasParentsBefore s.scopes.items };
}

mod lookups;

pub use lookups::home_of;

impl Scopes {
    ghost use Rattle.cacao_vars.specs.Scopes.{HasParentsBefore, home, declaration, home_declaration, value, IsConstant, with_write, with_scope};

    /// No scopes and no writes. It takes no memory.
    pub fn new(alloc: Global) -> Scopes
        ensures scopes { result.scopes ≡ [] }
        ensures writes { result.writes ≡ [] }
    {
        Scopes {
            scopes: Vec::new(alloc),
            writes: Vec::new(alloc),
        }
    }

    /// The scopes in the order of their numbers.
    pub fn scopes(&self) -> &[Scope]
        ensures scopes { result.now ≡ self.now.scopes }
        ensures parents { HasParentsBefore self.now.scopes }
    {
        self.scopes.as_slice()
    }

    /// All writes, the first one first.
    pub fn writes(&self) -> &[Write]
        ensures { result.now ≡ self.now.writes }
    {
        self.writes.as_slice()
    }

    /// Opens a scope inside another one, or with none around it, and answers its number.
    pub fn open_scope(&mut self, parent: Option<u32>, vars: Vars) -> Result<u32, AllocError>
        requires parent { ForSome parent (λ p. p < length self.old.scopes) }
        requires room { length self.old.scopes < 4294967295 }
        ensures number { IfOk result (λ scope. scope ≡ length self.old.scopes) }
        ensures ok { OnOk result (self.new ≡ with_scope self.old parent vars) }
        ensures err { OnErr result (self.new ≡ self.old) }
    {
        let number = self.scopes.len() as u32;
        self.scopes.push(Scope { parent, vars })?;
        Ok(number)
    }

    /// The value of a name in a scope; None where it is unset. It takes no memory.
    pub fn look(&self, scope: u32, name: &Name) -> Option<&Word>
        requires { scope < length self.now.scopes }
        ensures { option_copied result ≡ value self.now.scopes self.now.writes scope name.now }
    {
        let scopes = self.scopes.as_slice();
        let bytes = name.text().as_bytes();
        let home = lookups::home_of(scopes, scope, bytes)?;
        match lookups::last_write_to(self.writes.as_slice(), home, name) {
            Some(write) => Some(&write.worth),
            None => lookups::declaration_in(scopes, home, bytes)?.worth.as_ref(),
        }
    }

    /// The declaration of a name in its home; None where it has none. It takes no memory.
    pub fn declared(&self, scope: u32, name: &Name) -> Option<&Var>
        requires { scope < length self.now.scopes }
        ensures { option_copied result ≡ home_declaration self.now.scopes scope name.now }
    {
        let scopes = self.scopes.as_slice();
        let bytes = name.text().as_bytes();
        let home = lookups::home_of(scopes, scope, bytes)?;
        lookups::declaration_in(scopes, home, bytes)
    }

    /// Writes a text to a name in its home. A refusal changes nothing.
    pub fn write(&mut self, scope: u32, name: &Name, worth: Word) -> Result<(), ScopeError>
        requires { scope < length self.old.scopes }
        ensures ok { OnOk result (IsSomeAnd (home self.old.scopes scope name.now) (λ at. self.new ≡ with_write self.old at name.now worth)) }
        ensures unknown { IsErrOf result ScopeError.Unknown ↔ (home self.old.scopes scope name.now ≡ None) }
        ensures constant { IsErrOf result ScopeError.Constant ↔ IsSomeAnd (home self.old.scopes scope name.now) (λ at. IsConstant self.old.scopes at name.now) }
        ensures err { OnErr result (self.new ≡ self.old) }
    {
        let bytes = name.text().as_bytes();
        let Some(home) = lookups::home_of(self.scopes.as_slice(), scope, bytes) else {
            return Err(ScopeError::Unknown);
        };
        if lookups::is_constant(self.scopes.as_slice(), home, bytes) {
            return Err(ScopeError::Constant);
        }
        let name = name.clone()?;
        self.writes.push(Write {
            scope: home,
            name,
            worth,
        })?;
        Ok(())
    }

    /// Writes a text to a name in the stated scope, constant or not. A refusal changes nothing.
    pub fn bind(&mut self, scope: u32, name: &Name, worth: Word) -> Result<(), ScopeError>
        requires { scope < length self.old.scopes }
        ensures ok { OnOk result (self.new ≡ with_write self.old scope name.now worth) }
        ensures unknown { IsErrOf result ScopeError.Unknown ↔ (declaration self.old.scopes scope name.now ≡ None) }
        ensures constant { ¬ (IsErrOf result ScopeError.Constant) }
        ensures err { OnErr result (self.new ≡ self.old) }
    {
        if !lookups::declares(self.scopes.as_slice(), scope, name.text().as_bytes()) {
            return Err(ScopeError::Unknown);
        }
        let name = name.clone()?;
        self.writes.push(Write { scope, name, worth })?;
        Ok(())
    }
}
