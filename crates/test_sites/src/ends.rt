// Rows that make one end of a wire, and those of calls on it.
use crate::links::{call_list, link_over_pieces};
use crate::plans::{site, whole_link};
use crate::played::Answers;
use crate::slow::Slow;
use crate::streams::{long_command, nothings};
use crate::wires::Wires;
use cacao_site_memory::MemorySite;
use oc2_wire_memory::{MemoryLink, Pieces};
use std::alloc::{AllocError, Global};
use test_rows::Row;
use test_site_calls::answers::text;
use test_site_calls::number;

/// Ends of wires in memory.
pub(crate) type Ends = Wires<MemorySite, Slow<MemoryLink>>;

/// The link of a row `slow ROOM FAILING MOST`, over which nothing comes.
fn link_that_ends(alloc: Global, row: &Row) -> Result<MemoryLink, AllocError> {
    let failing = call_list(alloc, row.text(2))?;
    let none = Pieces::from_vec(Vec::new(alloc));
    MemoryLink::new(alloc, none, failing, number(row, 1).min(1_000_000))
}

/// A link that brings a command of so many bytes, with its line feed.
fn link_of_line(alloc: Global, row: &Row) -> Result<MemoryLink, AllocError> {
    let mut line = long_command(alloc, number(row, 1).saturating_sub(1))?;
    line.push(b'\n')?;
    whole_link(alloc, line, 1_000)
}

/// A link that brings so many lines that stand for nothing.
fn link_of_nothings(alloc: Global, row: &Row) -> Result<MemoryLink, AllocError> {
    let lines = nothings(alloc, number(row, 1))?;
    whole_link(alloc, lines, number(row, 2).min(4_000_000))
}

/// The link of a row that makes an end, as `asks ROOM FAILING PIECE ..`.
fn link(alloc: Global, row: &Row) -> Result<MemoryLink, AllocError> {
    match row.text(0) {
        "line" => link_of_line(alloc, row),
        "rest" => whole_link(alloc, long_command(alloc, number(row, 1))?, 1_000),
        "flood" => link_of_nothings(alloc, row),
        "slow" => link_that_ends(alloc, row),
        _ => link_over_pieces(alloc, row),
    }
}

/// How many bytes may go out over the link of a row in one call: those that a row `slow` says, else all.
fn most(row: &Row) -> usize {
    if row.text(0) == "slow" {
        number(row, 3).min(1_000_000) as usize
    } else {
        1_000_000
    }
}

/// What comes of a row that makes an end.
fn made(alloc: Global, ends: &mut Ends, row: &Row) -> Result<Vec<u8>, AllocError> {
    let link = Slow::new(link(alloc, row)?, most(row));
    match row.text(0) {
        "asks" | "slow" => ends.ask(site(alloc)?, link),
        _ => ends.reply(site(alloc)?, link),
    }
}

/// The bytes that were sent, or how many, where there are many.
fn sent(alloc: Global, bytes: &[u8]) -> Result<Vec<u8>, AllocError> {
    let count = bytes.len();
    if count > 1_000 {
        return Ok(format!(in alloc; "{count} bytes")?.into_bytes());
    }
    Vec::from_slice(alloc, bytes)
}

/// What comes of a row that gives an end up.
fn given_up(alloc: Global, ends: &mut Ends) -> Result<Vec<u8>, AllocError> {
    match ends.into_link() {
        Some(link) => {
            let link = link.into_link();
            sent(alloc, link.sent())
        }
        None => text(alloc, "no wire"),
    }
}

impl Answers for Ends {
    fn answer(&mut self, row: &Row) -> Result<Vec<u8>, AllocError> {
        let alloc = self.alloc();
        match row.text(0) {
            "asks" | "slow" | "answers" | "line" | "rest" | "flood" => made(alloc, self, row),
            "sent" => given_up(alloc, self),
            _ => self.called(row),
        }
    }
}
