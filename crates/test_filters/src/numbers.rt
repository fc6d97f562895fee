// Rows of whole numbers: `number TEXT MOST` and `integer TEXT BELOW ABOVE`.
use crate::answers::{none, number_of, number_or_none, unknown};
use base_decimals::{read_integer, read_number};
use std::alloc::{AllocError, Global};
use test_rows::Row;

fn integer(alloc: Global, text: &[u8], below: u64, above: u64) -> Result<String, AllocError> {
    if below > 9_223_372_036_854_775_808 || above > 9_223_372_036_854_775_807 {
        return unknown(alloc);
    }
    match read_integer(text, below, above) {
        Some(number) => format!(in alloc; "{number}"),
        None => none(alloc),
    }
}

/// What a row answers.
pub(crate) fn answer(alloc: Global, row: &Row) -> Result<String, AllocError> {
    match row.text(0) {
        "number" => number_or_none(alloc, read_number(row.bytes(1), number_of(row.text(2)))),
        "integer" => integer(
            alloc,
            row.bytes(1),
            number_of(row.text(2)),
            number_of(row.text(3)),
        ),
        _ => unknown(alloc),
    }
}
