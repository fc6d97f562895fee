// The members of an object.
use crate::trees::{number, whole};
use crate::words::{add_number, add_word, none};
use cacao_json::{Pairs, Text, Tree};
use std::alloc::{AllocError, Global};
use test_rows::Row;

/// The names of members, each behind a slash.
fn names(alloc: Global, pairs: &Pairs) -> Result<String, AllocError> {
    let mut said = String::new(alloc);
    for pair in pairs.as_slice() {
        said.push('/')?;
        said.push_str(pair.name.text())?;
    }
    Ok(said)
}

/// Takes a member out, and says what it was.
fn removed(alloc: Global, pairs: &mut Pairs, name: &str) -> Result<String, AllocError> {
    let found = pairs.remove(name);
    let said = match &found {
        Some(tree) => whole(alloc, Some(tree)),
        None => none(alloc),
    };
    drop(found);
    said
}

/// Puts a member, takes one out, or says all names. The fields are what is done, the name and the number.
fn step(
    alloc: Global,
    pairs: &mut Pairs,
    row: &Row,
    at: usize,
    said: &mut String,
) -> Result<(), AllocError> {
    let name = row.text(at.saturating_add(1));
    match row.text(at) {
        "put" => {
            let name = Text::from_str(alloc, name)?;
            pairs.put(name, Tree::Whole(number(row.text(at.saturating_add(2)))))
        }
        "remove" => add_word(said, removed(alloc, pairs, name)?.as_str()),
        "names" => add_word(said, names(alloc, pairs)?.as_str()),
        _ => add_word(said, "no such step"),
    }
}

/// Plays a row, three fields for each step, and says at the end how many members there are.
pub(crate) fn play(alloc: Global, row: &Row) -> Result<String, AllocError> {
    let mut pairs = Pairs::new(alloc);
    let mut said = String::new(alloc);
    for n in 0..row.count().saturating_sub(2) / 3 {
        let at = n.saturating_mul(3).saturating_add(1);
        step(alloc, &mut pairs, row, at, &mut said)?;
    }
    add_number(alloc, &mut said, pairs.into_vec().len())?;
    Ok(said)
}
