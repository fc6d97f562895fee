// The call of a shelf, and all calls of the outside.
use crate::answers::{listed, text};
use crate::fields::number;
use crate::rack::rack_answer;
use cacao_site::{Rack, Shelf};
use std::alloc::{AllocError, Global};
use test_rows::Row;

/// What a row `get_some` or `get` tells of the bytes of a file.
fn told(alloc: Global, row: &Row, bytes: &[u8]) -> Result<Vec<u8>, AllocError> {
    if row.text(0) == "get_some" && !bytes.is_empty() {
        return text(alloc, "some");
    }
    listed(alloc, bytes)
}

/// The answer to a row that is a call of a shelf.
///
/// `get NAME MOST` reads a file whole; `get_some NAME MOST` tells only whether it has bytes.
fn shelf_answer<S: Shelf>(alloc: Global, shelf: &mut S, row: &Row) -> Result<Vec<u8>, AllocError> {
    let most = number(row, 2).min(u32::MAX as u64) as u32;
    match shelf.read(alloc, row.text(1), most) {
        Ok(bytes) => told(alloc, row, bytes.as_slice()),
        Err(error) => Ok(format!(in alloc; "{error}")?.into_bytes()),
    }
}

/// The answer to a row that is a call of a shelf, or else of a rack or its site; `no such row` where it is none.
pub fn outside_answer<R: Rack, S: Shelf>(
    alloc: Global,
    rack: &mut R,
    shelf: &mut S,
    row: &Row,
) -> Result<Vec<u8>, AllocError> {
    match row.text(0) {
        "get" | "get_some" => shelf_answer(alloc, shelf, row),
        _ => rack_answer(alloc, rack, row),
    }
}
