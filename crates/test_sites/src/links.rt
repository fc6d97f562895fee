// Calls on a link and on peers in memory.
use crate::lines::line_answer;
use crate::plans::whole_link;
use crate::played::Answers;
use cacao_site::{Bytes, Failed};
use cacao_site_memory::CallList;
use oc2_wire_link::{Link, Peers};
use oc2_wire_memory::{MemoryLink, MemoryLinks, MemoryPeers, Pieces};
use std::alloc::{AllocError, Global};
use test_rows::Row;
use test_site_calls::answers::{counted, done, text};
use test_site_calls::number;

/// A link and peers, where there are such.
#[derive(Drop)]
pub(crate) struct Links {
    alloc: Global,
    link: Option<MemoryLink>,
    peers: Option<MemoryPeers>,
}

/// What comes of a bind.
fn bound(alloc: Global, peers: &mut MemoryPeers) -> Result<Vec<u8>, AllocError> {
    counted(alloc, peers.bind().map(u64::from))
}

/// What comes of closing a link, where there is one.
fn closed(
    alloc: Global,
    peers: &mut MemoryPeers,
    link: Option<MemoryLink>,
) -> Result<Vec<u8>, AllocError> {
    match link {
        Some(link) => done(alloc, peers.close(link)),
        None => text(alloc, "no link"),
    }
}

/// The numbers of a field, with a comma between two.
pub(crate) fn call_list(alloc: Global, field: &str) -> Result<CallList, AllocError> {
    let mut calls = Vec::new(alloc);
    for part in field.split(',') {
        if let Ok(call) = part.parse::<u32>() {
            calls.push(call)?;
        }
    }
    Ok(CallList::from_vec(calls))
}

/// The pieces of a row `link ROOM FAILING PIECE .. ANSWER`.
fn pieces(alloc: Global, row: &Row) -> Result<Pieces, AllocError> {
    let mut pieces = Vec::new(alloc);
    for field in 3..row.count().saturating_sub(1) {
        pieces.push(Bytes::from_slice(alloc, row.bytes(field))?)?;
    }
    Ok(Pieces::from_vec(pieces))
}

/// The link of such a row.
pub(crate) fn link_over_pieces(alloc: Global, row: &Row) -> Result<MemoryLink, AllocError> {
    let failing = call_list(alloc, row.text(2))?;
    let pieces = pieces(alloc, row)?;
    MemoryLink::new(alloc, pieces, failing, number(row, 1).min(1_000_000))
}

/// A link over which one piece comes, that of this number.
fn numbered_link(alloc: Global, number: u64) -> Result<MemoryLink, AllocError> {
    let piece = format!(in alloc; "link {number}")?;
    whole_link(alloc, piece.into_bytes(), 0)
}

/// So many links, numbered from 0.
fn numbered_links(alloc: Global, count: u64) -> Result<MemoryLinks, AllocError> {
    let mut links = Vec::new(alloc);
    for number in 0..count {
        links.push(numbered_link(alloc, number)?)?;
    }
    Ok(MemoryLinks::from_vec(links))
}

/// The front of a buffer that has so many bytes, and whether what lies behind changed.
fn filled(alloc: Global, buffer: &[u8], count: usize) -> Result<Vec<u8>, AllocError> {
    let count = count.min(buffer.len());
    let mut answer = format!(in alloc; "{count} ")?.into_bytes();
    answer.extend_from_slice(&buffer[..count])?;
    if buffer[count..].iter().any(|byte| *byte != b'.') {
        answer.extend_from_slice(b", and what lies behind changed")?;
    }
    Ok(answer)
}

/// What a link gives into a slice of so many bytes, and whether what lies behind changed.
fn received(alloc: Global, link: &mut MemoryLink, size: u64) -> Result<Vec<u8>, AllocError> {
    let mut buffer = vec![in alloc; b'.'; size.min(10_000) as usize]?;
    match link.receive(buffer.as_mut_slice()) {
        Ok(count) => filled(alloc, buffer.as_slice(), count as usize),
        Err(_) => text(alloc, "failed"),
    }
}

impl Links {
    /// No link and no peers.
    pub(crate) fn new(alloc: Global) -> Links {
        Links {
            alloc,
            link: None,
            peers: None,
        }
    }

    fn make_link(&mut self, row: &Row) -> Result<Vec<u8>, AllocError> {
        let link = link_over_pieces(self.alloc, row)?;
        self.keep(Ok(link))
    }

    fn make_peers(&mut self, row: &Row) -> Result<Vec<u8>, AllocError> {
        let failing = call_list(self.alloc, row.text(1))?;
        let links = numbered_links(self.alloc, number(row, 2))?;
        self.peers = Some(MemoryPeers::new(links, failing));
        text(self.alloc, "ok")
    }

    fn link_answer(&mut self, row: &Row) -> Result<Vec<u8>, AllocError> {
        let Some(link) = &mut self.link else {
            return text(self.alloc, "no link");
        };
        match row.text(0) {
            "send" => counted(self.alloc, link.send(row.bytes(1)).map(u64::from)),
            "receive" => received(self.alloc, link, number(row, 1)),
            _ => Vec::from_slice(self.alloc, link.sent()),
        }
    }

    /// Keeps a link.
    fn keep(&mut self, link: Result<MemoryLink, Failed>) -> Result<Vec<u8>, AllocError> {
        match link {
            Ok(link) => {
                self.link = Some(link);
                text(self.alloc, "ok")
            }
            Err(_) => text(self.alloc, "failed"),
        }
    }

    fn peers_answer(&mut self, row: &Row) -> Result<Vec<u8>, AllocError> {
        let Some(peers) = &mut self.peers else {
            return text(self.alloc, "no peers");
        };
        match row.text(0) {
            "bind" => bound(self.alloc, peers),
            "close" => closed(self.alloc, peers, self.link.take()),
            "start" => {
                let link = peers.start();
                self.keep(link)
            }
            _ => {
                let link = peers.accept();
                self.keep(link)
            }
        }
    }
}

impl Answers for Links {
    /// What comes of a call on the link or the peers, or of a row that makes them, or else of a call on lines.
    fn answer(&mut self, row: &Row) -> Result<Vec<u8>, AllocError> {
        match row.text(0) {
            "link" => self.make_link(row),
            "peers" => self.make_peers(row),
            "send" | "receive" | "sent" => self.link_answer(row),
            "start" | "accept" | "bind" | "close" => self.peers_answer(row),
            _ => line_answer(self.alloc, row),
        }
    }
}
