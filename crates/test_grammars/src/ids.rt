// Identifiers and stamps.
use crate::spelled::spelled;
use crate::words::{accepted, is_read, none, unknown, word};
use cacao_ids::{Id, Stamp, is_uuid};
use std::alloc::{AllocError, Global};
use test_rows::Row;

/// The word for an order.
fn order_word(is_same: bool, is_before: bool) -> &'static str {
    match (is_same, is_before) {
        (true, false) => "same",
        (false, true) => "before",
        (false, false) => "behind",
        (true, true) => "same and before",
    }
}

/// The order of two, where both were read.
fn order<T: Ord + Drop>(
    alloc: Global,
    one: Option<T>,
    other: Option<T>,
) -> Result<String, AllocError> {
    match (&one, &other) {
        (Some(one), Some(other)) => word(alloc, order_word(*one == *other, *one < *other)),
        _ => none(alloc),
    }
}

/// The object type of an identifier.
fn object_type(alloc: Global, text: &str) -> Result<String, AllocError> {
    match Id::read(alloc, text)? {
        Some(id) => word(alloc, id.object_type()),
        None => none(alloc),
    }
}

/// The text of an identifier's copy, which is the same.
fn id_text(alloc: Global, text: &str) -> Result<String, AllocError> {
    let Some(id) = Id::read(alloc, text)? else {
        return none(alloc);
    };
    let copy = id.clone()?;
    if copy == id {
        return word(alloc, id.text());
    }
    word(alloc, "another copy")
}

/// The order of two identifiers.
fn id_order(alloc: Global, one: &str, other: &str) -> Result<String, AllocError> {
    let one = Id::read(alloc, one)?;
    let other = Id::read(alloc, other)?;
    order(alloc, one, other)
}

/// The text of a stamp.
fn stamp_text(alloc: Global, text: &str) -> Result<String, AllocError> {
    match Stamp::read(alloc, text)? {
        Some(stamp) => word(alloc, stamp.text()),
        None => none(alloc),
    }
}

/// The order of two stamps.
fn stamp_order(alloc: Global, one: &str, other: &str) -> Result<String, AllocError> {
    let one = Stamp::read(alloc, one)?;
    let other = Stamp::read(alloc, other)?;
    order(alloc, one, other)
}

/// What a row is answered.
pub(crate) fn answer(alloc: Global, row: &Row) -> Result<String, AllocError> {
    let text = spelled(alloc, row.text(1))?;
    let text = text.as_str();
    match row.text(0) {
        "identifier" => is_read(alloc, Id::read(alloc, text)),
        "object type" => object_type(alloc, text),
        "identifier text" => id_text(alloc, text),
        "identifier order" => id_order(alloc, text, row.text(2)),
        "uuid" => accepted(alloc, is_uuid(text)),
        "stamp" => is_read(alloc, Stamp::read(alloc, text)),
        "stamp text" => stamp_text(alloc, text),
        "stamp order" => stamp_order(alloc, text, row.text(2)),
        _ => unknown(alloc),
    }
}
