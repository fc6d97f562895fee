// The end of the filters.
use crate::around::{Around, link, site};
use crate::kept::Kept;
use cacao_site::Site;
use oc2_wire::{WireError, serve_agent};
use oc2_wire_link::Link;
use oc2_wire_site::{LinkState, WireSite};
use std::alloc::{AllocError, Global};

/// What came of the end of the filters.
#[derive(Clone, Copy)]
pub enum Served {
    /// There was no memory for a wire.
    NoWire,
    /// The other end closed; so many acts were appended.
    Acted(u32),
    Refused(WireError),
}

/// What came of the end of the filters, and what it left.
#[derive(Drop)]
pub struct Answering {
    pub served: Served,
    /// What broke its link, and how many lines it passed over.
    pub state: LinkState,
    pub passed: u64,
    /// The bytes that went out.
    pub sent: Vec<u8>,
    /// How many lines it said.
    pub lines: usize,
    pub kept: Kept,
}

/// What came of an end, what broke its link, how many lines it passed over, and the link.
#[derive(Drop)]
struct Ended<K: Link> {
    served: Served,
    state: LinkState,
    passed: u64,
    link: K,
}

/// Serves the filters over a wire of this link.
fn serve<S: Site + Drop, K: Link>(alloc: Global, site: S, link: K) -> Ended<K> {
    let mut wire = match WireSite::answering(alloc, site, link) {
        Ok(wire) => wire,
        Err(link) => {
            return Ended {
                served: Served::NoWire,
                state: LinkState::NoMemory,
                passed: 0,
                link,
            };
        }
    };
    let served = match serve_agent(alloc, &mut wire) {
        Ok(acts) => Served::Acted(acts),
        Err(error) => Served::Refused(error),
    };
    let state = wire.state();
    let passed = wire.passed();
    Ended {
        served,
        state,
        passed,
        link: wire.into_link(),
    }
}

/// Plays the end of the filters on these files, over a link over which these bytes come.
pub fn answer(
    alloc: Global,
    around: Around,
    kept: &Kept,
    bytes: &[u8],
) -> Result<Answering, AllocError> {
    let mut site = site(alloc, around, kept)?;
    let link = link(alloc, around, bytes)?;
    let ended = serve(alloc, &mut site, link);
    Ok(Answering {
        served: ended.served,
        state: ended.state,
        passed: ended.passed,
        sent: ended.link.sent().to_vec(alloc)?,
        lines: site.line_count(),
        kept: Kept::left(alloc, site, around.choice)?,
    })
}
