// What the rows before have left.
use std::alloc::{AllocError, Global};
use test_rows::Row;
use test_session_plays::spelled_out;
use test_wire_plays::Kept;

/// A playbook with a name.
#[derive(Drop)]
struct Named {
    name: String,
    text: String,
}

/// Playbooks by name, the files of both ends, and what went out over their links last.
#[derive(Drop)]
pub(crate) struct Scene {
    books: Vec<Named>,
    pub(crate) engine: Kept,
    pub(crate) filters: Kept,
    pub(crate) commands: Vec<u8>,
    pub(crate) replies: Vec<u8>,
}

impl Scene {
    /// No playbook, blank files, and nothing that went out.
    pub(crate) fn new(alloc: Global) -> Scene {
        Scene {
            books: Vec::new(alloc),
            engine: Kept::blank(alloc),
            filters: Kept::blank(alloc),
            commands: Vec::new(alloc),
            replies: Vec::new(alloc),
        }
    }

    /// Names a playbook, whose members and identifiers are spelled out.
    pub(crate) fn add_book(&mut self, alloc: Global, row: &Row) -> Result<(), AllocError> {
        let name = String::from_str(alloc, row.text(1))?;
        let text = spelled_out(alloc, row.text(2))?;
        self.books.push(Named { name, text })?;
        Ok(())
    }

    /// The text of a playbook; empty where there is none of that name.
    pub(crate) fn book(&self, name: &str) -> &str {
        for book in &self.books {
            if book.name.as_str() == name {
                return book.text.as_str();
            }
        }
        ""
    }
}
