// Texts with names.
use std::alloc::{AllocError, Global};
use test_rows::Row;

/// A text with a name.
#[derive(Drop)]
struct Part {
    name: String,
    text: String,
}

/// Texts with names: a name that comes earlier stands in what comes later for its text.
#[derive(Drop)]
pub(crate) struct Texts {
    alloc: Global,
    parts: Vec<Part>,
}

impl Texts {
    /// Takes a row of a name and a text. A row without a name goes on with the text of the row before.
    fn add(&mut self, row: &Row) -> Result<(), AllocError> {
        if row.text(0).is_empty() {
            if let Some(part) = self.parts.last_mut() {
                part.text.push_str(row.text(1))?;
            }
            return Ok(());
        }
        let name = String::from_str(self.alloc, row.text(0))?;
        let text = String::from_str(self.alloc, row.text(1))?;
        self.parts.push(Part { name, text })?;
        Ok(())
    }

    /// The texts of these rows.
    pub(crate) fn of(alloc: Global, rows: &[Row]) -> Result<Texts, AllocError> {
        let mut texts = Texts {
            alloc,
            parts: Vec::new(alloc),
        };
        for row in rows {
            texts.add(row)?;
        }
        Ok(texts)
    }

    /// The text with its names and those of their texts spelled out: each name wherever it stands, in the order of the rows.
    pub(crate) fn whole(&self, text: &str) -> Result<String, AllocError> {
        let mut text = String::from_str(self.alloc, text)?;
        for part in &self.parts {
            text = text
                .as_str()
                .replace(self.alloc, part.name.as_str(), part.text.as_str())?;
        }
        Ok(text)
    }
}
