// Conditions.
use crate::spelled::spelled;
use crate::vars::listed;
use crate::words::{accepted, none, text_of, unknown, word, yes};
use cacao_cond::{Atom, Cond, CondError, Worths, names, print_cond, read_cond, truth, value_of};
use cacao_vars::{Kind, Name};
use std::alloc::{AllocError, Global};
use test_rows::Row;

/// The condition of a text; none where it is none.
fn read(alloc: Global, text: &str) -> Result<Option<Cond>, AllocError> {
    if text.len() > 2048 {
        return Ok(None);
    }
    match read_cond(alloc, text.as_bytes()) {
        Ok(cond) => Ok(Some(cond)),
        Err(CondError::Grammar) => Ok(None),
        Err(CondError::Memory) => Err(AllocError),
    }
}

/// A condition as it is printed.
fn printed(alloc: Global, cond: &Cond) -> Result<String, AllocError> {
    text_of(alloc, print_cond(alloc, cond)?.as_slice())
}

/// The names of a condition.
fn named(alloc: Global, cond: &Cond) -> Result<String, AllocError> {
    listed(alloc, &names(alloc, cond)?)
}

/// The values of two names; all others are unset.
#[derive(Drop)]
struct Two<'a> {
    a: Atom<'a>,
    b: Atom<'a>,
}

impl<'a> Worths for Two<'a> {
    ghost use Rattle.std.specs.Prelude.{codes, if◌then◌else◌};
    ghost use Rattle.std.specs.Str.{bytes_eq};
    ghost use Rattle.cacao_cond.specs.Worths.{worth_of, unset};

    ghost worth = { λ two name.
        if bytes_eq name (codes "__a__") then worth_of two.a
        else if bytes_eq name (codes "__b__") then worth_of two.b
        else unset };

    fn worth(&self, name: &Name) -> Atom<'_> {
        match name.text() {
            "__a__" => self.a,
            "__b__" => self.b,
            _ => Atom::Unset,
        }
    }
}

/// The value of a row.
fn atom<'a>(kind: &str, text: &'a str) -> Atom<'a> {
    match kind {
        "text" => Atom::Text(text),
        "flag" => Atom::Flag(text == "true"),
        "whole" => match text.parse::<i64>() {
            Ok(number) => Atom::Whole(number),
            Err(_) => Atom::Unset,
        },
        _ => Atom::Unset,
    }
}

/// Whether a condition holds where `__a__` has this value and `__b__` is 8.
fn holds(alloc: Global, cond: &Cond, a: Atom<'_>) -> Result<String, AllocError> {
    let two = Two {
        a,
        b: Atom::Whole(8),
    };
    yes(alloc, truth(cond, &two))
}

/// What is asked of a condition.
fn told(alloc: Global, cond: &Cond, row: &Row) -> Result<String, AllocError> {
    match row.text(0) {
        "condition" => accepted(alloc, true),
        "printed" => printed(alloc, cond),
        "names" => named(alloc, cond),
        "holds" => holds(alloc, cond, atom(row.text(2), row.text(3))),
        _ => unknown(alloc),
    }
}

/// What is asked of the condition of a text.
fn asked(alloc: Global, text: &str, row: &Row) -> Result<String, AllocError> {
    let found = read(alloc, text)?;
    let said = match &found {
        Some(cond) => told(alloc, cond, row),
        None => none(alloc),
    };
    // (dropped by name, which is one call: at the end of the function the drop of each part would stand, and be proved again)
    drop(found);
    said
}

/// A value.
fn valued(alloc: Global, atom: Atom<'_>) -> Result<String, AllocError> {
    match atom {
        Atom::Unset => word(alloc, "unset"),
        Atom::Whole(number) => format!(in alloc; "whole {number}"),
        Atom::Flag(flag) => format!(in alloc; "flag {flag}"),
        Atom::Text(text) => format!(in alloc; "text {text}"),
    }
}

/// The value of a variable of a kind, with this text or with none.
fn value(alloc: Global, kind: &str, text: Option<&str>) -> Result<String, AllocError> {
    let kind = Kind::read(alloc, kind)?;
    valued(alloc, value_of(&kind, text))
}

/// What a row is answered.
pub(crate) fn answer(alloc: Global, row: &Row) -> Result<String, AllocError> {
    let text = spelled(alloc, row.text(1))?;
    let text = text.as_str();
    match row.text(0) {
        "value" => value(alloc, text, Some(row.text(2))),
        "no value" => value(alloc, text, None),
        _ => asked(alloc, text, row),
    }
}
