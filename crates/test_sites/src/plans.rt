// What a wire stands on in memory.
use cacao_site::{Bytes, Parcel};
use cacao_site_memory::{CallList, MemorySite, SitePlan, WeatherList};
use oc2_wire_memory::{MemoryLink, Pieces};
use std::alloc::{AllocError, Global};

/// A site with room for 10,000 bytes and 100 calls, of which none fails.
pub(crate) fn site(alloc: Global) -> Result<MemorySite, AllocError> {
    MemorySite::new(
        alloc,
        SitePlan {
            room: 10_000,
            calls: 100,
            start: 0,
            stop_clock: 1_000_000,
            failing: CallList::from_vec(Vec::new(alloc)),
            weather: WeatherList::from_vec(Vec::new(alloc)),
        },
    )
}

/// These bytes in one piece.
pub(crate) fn one_piece(alloc: Global, bytes: Vec<u8>) -> Result<Pieces, AllocError> {
    let mut pieces = Vec::new(alloc);
    pieces.push(Bytes::from_vec(bytes))?;
    Ok(Pieces::from_vec(pieces))
}

/// A link over which these bytes come in one piece, with room for so many bytes to be sent.
pub(crate) fn whole_link(
    alloc: Global,
    bytes: Vec<u8>,
    room: u64,
) -> Result<MemoryLink, AllocError> {
    let none = CallList::from_vec(Vec::new(alloc));
    MemoryLink::new(alloc, one_piece(alloc, bytes)?, none, room)
}

/// A parcel to or from agent 1, of run 7.
pub(crate) fn parcel(
    alloc: Global,
    back: bool,
    issue: u32,
    bytes: &[u8],
) -> Result<Parcel, AllocError> {
    Ok(Parcel {
        agent: 1,
        back,
        run: 7,
        issue,
        bytes: Bytes::from_slice(alloc, bytes)?,
    })
}
