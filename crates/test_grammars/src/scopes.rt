// Declarations and scopes.
ghost use Rattle.std.specs.Prelude.{◌<◌, IfSome, length};

use crate::words::add_word;
use cacao_vars::{Kind, Name, ScopeError, Scopes, Var, Vars, Word};
use std::alloc::{AllocError, Global};
use test_rows::Row;

/// The value of a declaration, if it has one.
fn word_of(alloc: Global, worth: Option<&str>) -> Result<Option<Word>, AllocError> {
    match worth {
        Some(worth) => Ok(Some(Word::new(alloc, worth)?)),
        None => Ok(None),
    }
}

/// The declaration of a text: perhaps `constant` and a space, a name, and perhaps `=` and its value.
fn declaration(alloc: Global, text: &str) -> Result<Option<Var>, AllocError> {
    let (constant, text) = match text.strip_prefix("constant ") {
        Some(rest) => (true, rest),
        None => (false, text),
    };
    let (name, worth) = match text.split_once('=') {
        Some((name, worth)) => (name, Some(worth)),
        None => (text, None),
    };
    let Some(name) = Name::read(alloc, name)? else {
        return Ok(None);
    };
    Ok(Some(Var {
        name,
        kind: Kind::String,
        worth: word_of(alloc, worth)?,
        constant,
        external: false,
    }))
}

/// Adds a declaration, and says what came of it.
fn insert(vars: &mut Vars, var: Option<Var>) -> Result<&'static str, AllocError> {
    let Some(var) = var else {
        return Ok("no name");
    };
    if vars.insert(var)? {
        return Ok("added");
    }
    Ok("kept")
}

/// Adds the declaration of a text, and says what came of it.
fn declare(
    alloc: Global,
    vars: &mut Vars,
    text: &str,
    said: &mut String,
) -> Result<(), AllocError> {
    let var = declaration(alloc, text)?;
    add_word(said, insert(vars, var)?)
}

/// The declarations of a text, with `;` between each two, and what came of each.
pub(crate) fn vars_of(alloc: Global, text: &str, said: &mut String) -> Result<Vars, AllocError> {
    let mut vars = Vars::new(alloc);
    for part in text.split(';') {
        declare(alloc, &mut vars, part, said)?;
    }
    Ok(vars)
}

/// Scope 0 with the first declarations, and scope 1 in it with the others.
fn scopes_of(alloc: Global, outer: &str, inner: &str) -> Result<Scopes, AllocError> {
    let mut said = String::new(alloc);
    let outer = vars_of(alloc, outer, &mut said)?;
    let inner = vars_of(alloc, inner, &mut said)?;
    let mut scopes = Scopes::new(alloc);
    let around = scopes.open_scope(None, outer)?;
    scopes.open_scope(Some(around), inner)?;
    Ok(scopes)
}

/// What came of a write.
fn written(done: Result<(), ScopeError>) -> &'static str {
    match done {
        Ok(()) => "written",
        Err(ScopeError::Unknown) => "unknown",
        Err(ScopeError::Constant) => "constant",
        Err(ScopeError::Memory) => "out of memory",
    }
}

/// The number of a scope that there is.
fn scope_of(scopes: &Scopes, text: &str) -> Option<u32>
    ensures { IfSome result (λ scope. scope < length scopes.now.scopes) }
{
    match text.parse::<u32>() {
        Ok(scope) => {
            if (scope as usize) < scopes.scopes().len() {
                return Some(scope);
            }
            None
        }
        Err(_) => None,
    }
}

/// The value of a name.
fn value<'a>(scopes: &'a Scopes, scope: u32, name: &Name) -> &'a str
    requires { scope < length scopes.now.scopes }
{
    match scopes.look(scope, name) {
        Some(word) => word.text(),
        None => "(unset)",
    }
}

/// Writes or binds a text, or looks for a value, and says what came of it. The fields are what is done, the scope, the name and the text.
fn step(
    alloc: Global,
    scopes: &mut Scopes,
    row: &Row,
    at: usize,
    said: &mut String,
) -> Result<(), AllocError> {
    let Some(scope) = scope_of(scopes, row.text(at.saturating_add(1))) else {
        return add_word(said, "no scope");
    };
    let Some(name) = Name::read(alloc, row.text(at.saturating_add(2)))? else {
        return add_word(said, "no name");
    };
    let worth = Word::new(alloc, row.text(at.saturating_add(3)))?;
    match row.text(at) {
        "write" => add_word(said, written(scopes.write(scope, &name, worth))),
        "bind" => add_word(said, written(scopes.bind(scope, &name, worth))),
        "value" => add_word(said, value(scopes, scope, &name)),
        _ => add_word(said, "no such step"),
    }
}

/// Plays a row over two scopes: the declarations of each, and then four fields for each step.
pub(crate) fn play(alloc: Global, row: &Row) -> Result<String, AllocError> {
    let mut scopes = scopes_of(alloc, row.text(1), row.text(2))?;
    let mut said = String::new(alloc);
    for n in 0..row.count().saturating_sub(4) / 4 {
        let at = n.saturating_mul(4).saturating_add(3);
        step(alloc, &mut scopes, row, at, &mut said)?;
    }
    Ok(said)
}
