// Files of rows.
use crate::row::Row;
use std::alloc::{AllocError, Global};
use std::rt::Files;
use std::str::from_utf8;
use std::{fs, io};

/// Whether a line is a row, and no comment.
fn is_row(line: &str) -> bool {
    match line.as_bytes().first() {
        Some(byte) => *byte != b'#',
        None => false,
    }
}

/// The rows of a text; none where it is not UTF-8.
pub fn read_rows(alloc: Global, text: &[u8]) -> Result<Vec<Row>, AllocError> {
    let mut rows = Vec::new(alloc);
    let Ok(text) = from_utf8(text) else {
        return Ok(rows);
    };
    let mut number = 0u32;
    for line in text.split('\n') {
        number = number.saturating_add(1);
        if is_row(line) {
            rows.push(Row::read(alloc, number, line)?)?;
        }
    }
    Ok(rows)
}

/// Reads a file of rows in the current folder.
pub fn read_file(rt: &(impl Files + AllocGlobal), name: &str) -> io::Result<Vec<Row>> {
    let text = fs::read(rt, name)?;
    Ok(read_rows(rt.alloc(), text.as_slice())?)
}
