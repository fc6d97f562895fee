// One row.
use crate::escapes::unescaped;
use std::alloc::{AllocError, Global};
use std::str::from_utf8;

/// One row: its fields without escapes, and where it stands.
#[derive(Drop)]
pub struct Row {
    line: u32,
    fields: Vec<Vec<u8>>,
}

impl Row {
    /// The row of a line of this number, from 1.
    pub(crate) fn read(alloc: Global, line: u32, text: &str) -> Result<Row, AllocError> {
        let mut fields = Vec::new(alloc);
        for field in text.split('\t') {
            fields.push(unescaped(alloc, field)?)?;
        }
        Ok(Row { line, fields })
    }

    /// Its line in the file, from 1.
    pub fn line(&self) -> u32 {
        self.line
    }

    /// How many fields it has.
    pub fn count(&self) -> usize {
        self.fields.len()
    }

    /// A field, by its number from 0, without escapes; empty where there is none.
    pub fn bytes(&self, n: usize) -> &[u8] {
        match self.fields.get(n) {
            Some(field) => field.as_slice(),
            None => b"",
        }
    }

    /// The same as text; empty where it is not UTF-8.
    pub fn text(&self, n: usize) -> &str {
        match from_utf8(self.bytes(n)) {
            Ok(text) => text,
            Err(_) => "",
        }
    }

    /// The whole number that a field is in decimal; none where it is no such number.
    pub fn whole(&self, n: usize) -> Option<i128> {
        match self.text(n).parse::<i128>() {
            Ok(number) => Some(number),
            Err(_) => None,
        }
    }

    /// The last field, which is the expected answer.
    pub fn wanted(&self) -> &[u8] {
        self.bytes(self.count().saturating_sub(1))
    }
}
