// Look-ups along the scopes.
ghost use Rattle.std.specs.Prelude.{◌≡◌, ◌↔◌, ◌<◌, IsTrue, IfSome, is_some, length};
ghost use Rattle.std.specs.Option.{option_copied};
ghost use Rattle.cacao_vars.specs.Scopes.{HasParentsBefore, parent_of, home, declaration, last_write, IsConstant};

use super::{Scope, Write};
use crate::declarations::Var;
use crate::variable_names::Name;

// What a scope itself declares of a name.
pub fn declaration_in<'a>(scopes: &'a [Scope], scope: u32, name: &[u8]) -> Option<&'a Var>
    requires { scope < length scopes.now }
    ensures { option_copied result ≡ declaration scopes.now scope name.now }
{
    scopes[scope as usize].vars.find_bytes(name)
}

// Whether a scope itself declares a name.
pub fn declares(scopes: &[Scope], scope: u32, name: &[u8]) -> bool
    requires { scope < length scopes.now }
    ensures { result ≡ is_some (declaration scopes.now scope name.now) }
{
    declaration_in(scopes, scope, name).is_some()
}

// Whether a scope itself declares a name as constant.
pub fn is_constant(scopes: &[Scope], scope: u32, name: &[u8]) -> bool
    requires { scope < length scopes.now }
    ensures { IsTrue result ↔ IsConstant scopes.now scope name.now }
{
    match declaration_in(scopes, scope, name) {
        Some(var) => var.constant,
        None => false,
    }
}

// The scope around a scope.
fn parent_in(scopes: &[Scope], scope: u32) -> Option<u32>
    requires { scope < length scopes.now }
    ensures { result ≡ parent_of scopes.now scope }
{
    scopes[scope as usize].parent
}

/// The first scope that declares the name with these bytes, from this one along the parents. It takes no memory.
pub fn home_of(scopes: &[Scope], scope: u32, name: &[u8]) -> Option<u32>
    requires scope { scope < length scopes.now }
    requires parents { HasParentsBefore scopes.now }
    ensures home { result ≡ home scopes.now scope name.now }
    ensures exists { IfSome result (λ at. at < length scopes.now) }
{
    let mut at = scope;
    loop {
        if declares(scopes, at, name) {
            return Some(at);
        }
        match parent_in(scopes, at) {
            Some(parent) => at = parent,
            None => return None,
        }
    }
}

// The last write to a name in a scope.
pub fn last_write_to<'a>(writes: &'a [Write], scope: u32, name: &Name) -> Option<&'a Write>
    ensures { option_copied result ≡ last_write writes.now scope name.now }
{
    writes
        .iter()
        .rev()
        .find(|write| write.scope == scope && write.name == *name)
}
