// Calls on a site over a link.
use crate::plans::parcel;
use cacao_site::{Bytes, Parcel, Site};
use oc2_wire_link::Link;
use oc2_wire_site::{LinkState, WireSite};
use std::alloc::{AllocError, Global};
use test_rows::Row;
use test_site_calls::answers::{no_such_row, text, whole};
use test_site_calls::{number, site_answer, small};

/// A wire, where there is one.
#[derive(Drop)]
pub(crate) struct Wires<S: Site + Drop, K: Link + Drop> {
    alloc: Global,
    wire: Option<WireSite<S, K>>,
}

/// A small number in a field.
fn count(row: &Row, field: usize) -> u32 {
    number(row, field).min(1_000) as u32
}

/// The word for what broke a link.
fn word(state: LinkState) -> &'static str {
    match state {
        LinkState::Whole => "whole",
        LinkState::Ended => "ended",
        LinkState::Failed => "failed",
        LinkState::TooLong => "too long",
        LinkState::PassedOver => "passed over",
        LinkState::NoMemory => "no memory",
    }
}

/// What broke the link, and how many lines were passed over.
fn state<S: Site, K: Link>(alloc: Global, wire: &WireSite<S, K>) -> Result<Vec<u8>, AllocError> {
    let word = word(wire.state());
    let passed = wire.passed();
    let line = format!(in alloc; "{word}, {passed} passed over")?;
    Ok(line.into_bytes())
}

/// How many bytes the text of the parcel has that is taken.
fn size<S: Site, K: Link>(alloc: Global, wire: &mut WireSite<S, K>) -> Result<Vec<u8>, AllocError> {
    match wire.take()? {
        Some(parcel) => whole(alloc, parcel.bytes.len() as u64),
        None => text(alloc, "none"),
    }
}

/// A command of a row `command AGENT RUN ISSUE BYTES`.
fn any_command(alloc: Global, row: &Row) -> Result<Parcel, AllocError> {
    Ok(Parcel {
        agent: small(row, 1),
        back: false,
        run: number(row, 2),
        issue: number(row, 3).min(4_294_967_295) as u32,
        bytes: Bytes::from_slice(alloc, row.bytes(4))?,
    })
}

impl<S: Site + Drop, K: Link + Drop> Wires<S, K> {
    /// No wire.
    pub(crate) fn new(alloc: Global) -> Wires<S, K> {
        Wires { alloc, wire: None }
    }

    pub(crate) fn alloc(&self) -> Global {
        self.alloc
    }

    /// Keeps an end that was made, if memory sufficed.
    fn keep(&mut self, made: Result<WireSite<S, K>, K>) -> Result<Vec<u8>, AllocError> {
        match made {
            Ok(wire) => {
                self.wire = Some(wire);
                text(self.alloc, "ok")
            }
            Err(_) => Err(AllocError),
        }
    }

    /// Makes the end that asks, over this site and this link.
    pub(crate) fn ask(&mut self, site: S, link: K) -> Result<Vec<u8>, AllocError> {
        self.keep(WireSite::asking(self.alloc, site, link))
    }

    /// Makes the end that answers, over this site and this link.
    pub(crate) fn reply(&mut self, site: S, link: K) -> Result<Vec<u8>, AllocError> {
        self.keep(WireSite::answering(self.alloc, site, link))
    }

    /// The link of the wire, which is given up.
    pub(crate) fn into_link(&mut self) -> Option<K> {
        match self.wire.take() {
            Some(wire) => Some(wire.into_link()),
            None => None,
        }
    }

    /// What comes of a call on the wire; `no such row` where there is no wire, or no call of that name.
    pub(crate) fn called(&mut self, row: &Row) -> Result<Vec<u8>, AllocError> {
        match &mut self.wire {
            Some(wire) => call_answer(self.alloc, wire, row),
            None => no_such_row(self.alloc),
        }
    }
}

/// Puts a parcel, and tells the state behind it.
fn put<S: Site, K: Link>(
    alloc: Global,
    wire: &mut WireSite<S, K>,
    parcel: Parcel,
) -> Result<Vec<u8>, AllocError> {
    wire.put(parcel);
    state(alloc, wire)
}

/// What comes of a call of a wire, a site or a disk.
fn call_answer<S: Site, K: Link>(
    alloc: Global,
    wire: &mut WireSite<S, K>,
    row: &Row,
) -> Result<Vec<u8>, AllocError> {
    match row.text(0) {
        "reply" => put(
            alloc,
            wire,
            parcel(alloc, true, count(row, 1), row.bytes(2))?,
        ),
        "command" => put(alloc, wire, any_command(alloc, row)?),
        "mark" => {
            wire.mark();
            state(alloc, wire)
        }
        "state" => state(alloc, wire),
        "size" => size(alloc, wire),
        _ => site_answer(alloc, wire, row),
    }
}
