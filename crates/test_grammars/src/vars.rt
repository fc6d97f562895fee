// Names, references, declarations and kinds.
use crate::scopes::{play, vars_of};
use crate::spelled::spelled;
use crate::words::{accepted, add_word, kind_word, none, unknown, word};
use cacao_vars::{Kind, Name, Names, Vars, find_reference, leading_reference, whole_reference};
use std::alloc::{AllocError, Global};
use test_rows::Row;

/// Whether a text is a name, where both ways to ask agree.
fn name(alloc: Global, text: &str) -> Result<String, AllocError> {
    let is_read = Name::read(alloc, text)?.is_some();
    if is_read == Name::fits(text) {
        return accepted(alloc, is_read);
    }
    word(alloc, "read and fits differ")
}

/// The first reference of a text: what stands before it, its name, and what stands behind it.
fn first(alloc: Global, text: &str) -> Result<String, AllocError> {
    let Some(found) = find_reference(text) else {
        return none(alloc);
    };
    let before = found.before;
    let name = found.name;
    let rest = found.rest;
    format!(in alloc; "{before}|{name}|{rest}")
}

/// The length of the name of the reference at a text's front.
fn leading(alloc: Global, text: &str) -> Result<String, AllocError> {
    match leading_reference(text.as_bytes()) {
        Some(length) => format!(in alloc; "{length}"),
        None => none(alloc),
    }
}

/// The name of a text that is a reference.
fn whole(alloc: Global, text: &str) -> Result<String, AllocError> {
    match whole_reference(text) {
        Some(name) => word(alloc, name),
        None => none(alloc),
    }
}

/// The word for a kind, and the type's name where it is none of the ten.
fn kind_text(alloc: Global, kind: &Kind) -> Result<String, AllocError> {
    let word = kind_word(kind);
    match kind {
        Kind::Other(name) => {
            let name = name.text();
            format!(in alloc; "{word} {name}")
        }
        _ => String::from_str(alloc, word),
    }
}

/// The kind that a type's name stands for, where it is equal to itself read again.
fn kind(alloc: Global, text: &str) -> Result<String, AllocError> {
    let kind = Kind::read(alloc, text)?;
    let again = Kind::read(alloc, text)?;
    if kind == again {
        kind_text(alloc, &kind)
    } else {
        word(alloc, "another kind the second time")
    }
}

/// A list of names as it was pushed.
pub(crate) fn listed(alloc: Global, names: &Names) -> Result<String, AllocError> {
    let mut said = String::new(alloc);
    for name in names.as_slice() {
        add_word(&mut said, name.text())?;
    }
    Ok(said)
}

/// A list of the row's names.
fn names(alloc: Global, row: &Row) -> Result<String, AllocError> {
    let mut names = Names::new(alloc);
    for n in 1..row.count().saturating_sub(1) {
        if let Some(name) = Name::read(alloc, row.text(n))? {
            names.push(name)?;
        }
    }
    listed(alloc, &names)
}

/// The names that are declared, in order.
fn declared(vars: &Vars, said: &mut String) -> Result<(), AllocError> {
    for var in vars.as_slice() {
        add_word(said, var.name.text())?;
    }
    Ok(())
}

/// What comes of declarations one after the other, and then the names of a copy of them all.
fn declarations(alloc: Global, text: &str) -> Result<String, AllocError> {
    let mut said = String::new(alloc);
    let vars = vars_of(alloc, text, &mut said)?;
    let copy = vars.clone()?;
    declared(&copy, &mut said)?;
    Ok(said)
}

/// What a row is answered.
pub(crate) fn answer(alloc: Global, row: &Row) -> Result<String, AllocError> {
    let text = spelled(alloc, row.text(1))?;
    let text = text.as_str();
    match row.text(0) {
        "name" => name(alloc, text),
        "reference" => first(alloc, text),
        "leading" => leading(alloc, text),
        "whole" => whole(alloc, text),
        "kind" => kind(alloc, text),
        "names" => names(alloc, row),
        "declarations" => declarations(alloc, text),
        "scopes" => play(alloc, row),
        _ => unknown(alloc),
    }
}
