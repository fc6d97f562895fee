// Canonical texts.
use crate::spelled::spelled;
use crate::trees::read;
use crate::words::{text_of, unknown, word};
use cacao_json::Tree;
use cacao_text::{Bytes2, canonical, canonical_book, canonical_book_with_room, canonical_string};
use std::alloc::{AllocError, Global};
use test_rows::Row;

/// The canonical text of a text.
fn once(alloc: Global, text: &str) -> Result<String, AllocError> {
    let Ok(tree) = read(alloc, text) else {
        return word(alloc, "no tree");
    };
    let line = canonical(alloc, &tree);
    drop(tree);
    text_of(alloc, line?.as_slice())
}

/// The same, where the canonical text is that of itself.
fn twice(alloc: Global, text: &str) -> Result<String, AllocError> {
    let found = once(alloc, text)?;
    let again = once(alloc, found.as_str())?;
    if found == again {
        return Ok(found);
    }
    word(alloc, "another text the second time")
}

/// The canonical text of a string.
fn string(alloc: Global, text: &str) -> Result<String, AllocError> {
    let line: Bytes2 = canonical_string(alloc, text)?;
    if line.is_empty() {
        return word(alloc, "empty");
    }
    text_of(alloc, line.as_slice())
}

/// The canonical text of the tree of a playbook, where both ways to ask agree, one of them with room for so many bytes.
fn line_of(alloc: Global, tree: &Tree, room: usize) -> Result<String, AllocError> {
    let found = canonical_book(alloc, tree)?.into_vec();
    let again = canonical_book_with_room(alloc, tree, room)?;
    if found.len() == again.len() && found.as_slice() == again.as_slice() {
        text_of(alloc, found.as_slice())
    } else {
        word(alloc, "another text with room")
    }
}

/// The canonical text of a playbook.
fn book(alloc: Global, text: &str) -> Result<String, AllocError> {
    let Ok(tree) = read(alloc, text) else {
        return word(alloc, "no tree");
    };
    let said = line_of(alloc, &tree, text.len());
    drop(tree);
    said
}

/// What a row is answered.
pub(crate) fn answer(alloc: Global, row: &Row) -> Result<String, AllocError> {
    let text = spelled(alloc, row.text(1))?;
    let text = text.as_str();
    match row.text(0) {
        "canonical" => twice(alloc, text),
        "string" => string(alloc, text),
        "book" => book(alloc, text),
        _ => unknown(alloc),
    }
}
