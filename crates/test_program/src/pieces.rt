// Texts in pieces. A field that is a piece stands for its own bytes, or, where it begins with `@`, for a text that was named: `@name` for
// the whole, `@name*64` for it 64 times, and `@name..12` for its first 12 bytes.
use crate::texts::Texts;
use std::alloc::{AllocError, Global};
use test_rows::Row;

/// A text that was named, and how much of it stands there.
#[derive(Clone, Copy)]
struct Part<'a> {
    bytes: &'a [u8],
    times: u32,
}

/// The front of these bytes that has at most this length.
pub(crate) fn front(bytes: &[u8], length: usize) -> &[u8] {
    &bytes[..length.min(bytes.len())]
}

/// The number that a text is in decimal.
fn number(text: &str) -> Option<u32> {
    match text.parse::<u32>() {
        Ok(number) => Some(number),
        Err(_) => None,
    }
}

/// What the words behind an `@` stand for; nothing where no text has that name, or no number stands where one should.
fn part_of<'a>(texts: &'a Texts, words: &str) -> Option<Part<'a>> {
    if let Some((name, times)) = words.split_once('*') {
        let bytes = texts.get(name)?;
        let times = number(times)?;
        return Some(Part { bytes, times });
    }
    if let Some((name, length)) = words.split_once("..") {
        let bytes = front(texts.get(name)?, number(length)? as usize);
        return Some(Part { bytes, times: 1 });
    }
    let bytes = texts.get(words)?;
    Some(Part { bytes, times: 1 })
}

/// Puts a part behind these bytes.
fn add_part(joined: &mut Vec<u8>, part: Part) -> Result<(), AllocError> {
    for _ in 0..part.times {
        joined.extend_from_slice(part.bytes)?;
    }
    Ok(())
}

/// Puts a field behind these bytes; false where it stands for nothing.
fn add_field(
    texts: &Texts,
    joined: &mut Vec<u8>,
    row: &Row,
    field: usize,
) -> Result<bool, AllocError> {
    let Some(words) = row.text(field).strip_prefix("@") else {
        joined.extend_from_slice(row.bytes(field))?;
        return Ok(true);
    };
    let Some(part) = part_of(texts, words) else {
        return Ok(false);
    };
    add_part(joined, part)?;
    Ok(true)
}

/// The fields of a row from the first number on and before the last one, one behind the other; nothing where one stands for nothing.
pub(crate) fn joined(
    alloc: Global,
    texts: &Texts,
    row: &Row,
    first: usize,
    last: usize,
) -> Result<Option<Vec<u8>>, AllocError> {
    let mut joined = Vec::new(alloc);
    for field in first..last {
        if !add_field(texts, &mut joined, row, field)? {
            return Ok(None);
        }
    }
    Ok(Some(joined))
}
