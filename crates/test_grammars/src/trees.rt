// JSON texts as trees.
use crate::members;
use crate::spelled::spelled;
use crate::words::{add_word, none, some, unknown, word};
use cacao_json::{
    Items, JsonError, TEXT_LIMIT, Text, Tree, copy_tree, find_tree, member, read_tree, text_of,
    whole_of,
};
use std::alloc::{AllocError, Global};
use std::cmp::Ordering;
use test_rows::Row;

/// The tree of a text, or why it has none.
pub(crate) fn read(alloc: Global, text: &str) -> Result<Tree, JsonError> {
    if text.len() > TEXT_LIMIT {
        return Err(JsonError::Memory);
    }
    read_tree(alloc, text.as_bytes())
}

/// Why a text has no tree.
fn error(alloc: Global, error: JsonError) -> Result<String, AllocError> {
    match error {
        JsonError::NotJson => word(alloc, "NotJson"),
        JsonError::RepeatedName { colons, members } => {
            format!(in alloc; "RepeatedName {colons} {members}")
        }
        JsonError::NotWhole { index } => format!(in alloc; "NotWhole {index}"),
        JsonError::Memory => word(alloc, "Memory"),
    }
}

/// Whether a text has a tree, or why it has none.
fn reading(alloc: Global, text: &str) -> Result<String, AllocError> {
    match read(alloc, text) {
        Ok(tree) => {
            drop(tree);
            word(alloc, "read")
        }
        Err(why) => error(alloc, why),
    }
}

/// The part of a tree: an item where a number stands behind `#`, else a member.
fn part<'a>(tree: &'a Tree, name: &str) -> Option<&'a Tree> {
    let Some(number) = name.strip_prefix("#") else {
        return member(tree, name);
    };
    match (tree, number.parse::<usize>()) {
        (Tree::List(items), Ok(number)) => items.as_slice().get(number),
        _ => None,
    }
}

/// The part of a tree to which the row's fields from 2 on lead.
fn led_to<'a>(tree: &'a Tree, row: &Row) -> Option<&'a Tree> {
    let mut found = tree;
    for n in 2..row.count().saturating_sub(1) {
        found = part(found, row.text(n))?;
    }
    Some(found)
}

/// The whole number that a part is.
pub(crate) fn whole(alloc: Global, part: Option<&Tree>) -> Result<String, AllocError> {
    let Some(part) = part else {
        return word(alloc, "no part");
    };
    match whole_of(part) {
        Some(number) => format!(in alloc; "{number}"),
        None => none(alloc),
    }
}

/// The text that a part is.
fn named(alloc: Global, part: Option<&Tree>) -> Result<String, AllocError> {
    let Some(part) = part else {
        return word(alloc, "no part");
    };
    match text_of(part) {
        Some(text) => word(alloc, text.text()),
        None => none(alloc),
    }
}

/// What is asked of a tree.
fn told(alloc: Global, what: &str, tree: &Tree, row: &Row) -> Result<String, AllocError> {
    match what {
        "whole" => whole(alloc, led_to(tree, row)),
        "text" => named(alloc, led_to(tree, row)),
        "member" => some(alloc, led_to(tree, row).is_some()),
        _ => unknown(alloc),
    }
}

/// What is asked of a copy.
fn told_of_copy(alloc: Global, what: &str, copy: Tree, row: &Row) -> Result<String, AllocError> {
    let said = told(alloc, what, &copy, row);
    drop(copy);
    said
}

/// What is asked of the tree of a text, or of its copy.
fn asked(alloc: Global, text: &str, row: &Row) -> Result<String, AllocError> {
    let Ok(tree) = read(alloc, text) else {
        return word(alloc, "no tree");
    };
    match row.text(0).strip_prefix("copied ") {
        Some(what) => {
            let copy = copy_tree(alloc, &tree);
            drop(tree);
            told_of_copy(alloc, what, copy?, row)
        }
        None => {
            let said = told(alloc, row.text(0), &tree, row);
            drop(tree);
            said
        }
    }
}

/// Whether a tree is found in a text, and whether it is a list.
fn found(alloc: Global, text: &str) -> Result<String, AllocError> {
    let found = find_tree(alloc, text.as_bytes())?;
    let what = match &found {
        Some(Tree::List(_)) => "list",
        Some(_) => "no list",
        None => "none",
    };
    drop(found);
    word(alloc, what)
}

/// The number of a field; 0 where it is none.
pub(crate) fn number(text: &str) -> i64 {
    match text.parse::<i64>() {
        Ok(number) => number,
        Err(_) => 0,
    }
}

/// The items of these whole numbers, the first one by a list.
fn items_of(alloc: Global, row: &Row) -> Result<Items, AllocError> {
    if row.count() < 3 {
        return Ok(Items::new(alloc));
    }
    let first = Tree::Whole(number(row.text(1)));
    let mut items = Items::from_vec(vec![in alloc; first]?);
    for n in 2..row.count().saturating_sub(1) {
        items.push(Tree::Whole(number(row.text(n))))?;
    }
    Ok(items)
}

/// Adds a whole number to a list.
fn add_whole(alloc: Global, said: &mut String, tree: &Tree) -> Result<(), AllocError> {
    let text = whole(alloc, Some(tree))?;
    add_word(said, text.as_str())
}

/// The whole numbers of these.
fn wholes(alloc: Global, trees: &[Tree]) -> Result<String, AllocError> {
    let mut said = String::new(alloc);
    for tree in trees {
        add_whole(alloc, &mut said, tree)?;
    }
    Ok(said)
}

/// The whole numbers of items.
fn items(alloc: Global, row: &Row) -> Result<String, AllocError> {
    let items = items_of(alloc, row)?.into_vec();
    if items.is_empty() {
        word(alloc, "empty")
    } else {
        wholes(alloc, items.as_slice())
    }
}

/// The order of two texts.
fn order(alloc: Global, one: &str, other: &str) -> Result<String, AllocError> {
    let one = Text::from_str(alloc, one)?;
    let other = Text::from_string(String::from_str(alloc, other)?);
    let is_before = one < other;
    word(
        alloc,
        match one.cmp(&other) {
            Ordering::Less if is_before => "before",
            Ordering::Equal => "same",
            _ => "behind",
        },
    )
}

/// A text, where its copy is the same.
fn copied(alloc: Global, text: &str) -> Result<String, AllocError> {
    let one = Text::from_str(alloc, text)?;
    let copy = one.clone()?;
    if copy == one {
        return copy.into_string(alloc);
    }
    word(alloc, "another copy")
}

/// What a row is answered.
pub(crate) fn answer(alloc: Global, row: &Row) -> Result<String, AllocError> {
    let text = spelled(alloc, row.text(1))?;
    let text = text.as_str();
    match row.text(0) {
        "tree" => reading(alloc, text),
        "find" => found(alloc, text),
        "items" => items(alloc, row),
        "members" => members::play(alloc, row),
        "order" => order(alloc, text, row.text(2)),
        "copy" => copied(alloc, text),
        _ => asked(alloc, text, row),
    }
}
