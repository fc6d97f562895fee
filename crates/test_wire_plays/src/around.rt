// What is outside an end, and the link and the site that come of it.
use crate::kept::Kept;
use cacao_site::{Bytes, Site};
use cacao_site_memory::{CallList, MemorySite, SitePlan, WeatherList};
use oc2_wire_memory::{MemoryLink, Pieces};
use std::alloc::{AllocError, Global};
use test_session_plays::{Outside, fair};

/// What is outside an end: how its device and its clock do, and its link.
#[derive(Clone, Copy)]
pub struct Around {
    pub outside: Outside,
    /// The moment to which the clock goes on before the end begins, in milliseconds.
    pub begins: u64,
    /// The bytes that can be sent over the link.
    pub room: u64,
    /// The number of a call of the link that fails, from 0.
    pub breaks: Option<u32>,
    /// What the files hold behind the end: 0, as they read; others pick what a crash leaves.
    pub choice: u64,
}

/// What is outside both ends.
#[derive(Clone, Copy)]
pub struct Arounds {
    pub engine: Around,
    pub filters: Around,
}

/// Nothing fails.
pub fn calm() -> Around {
    Around {
        outside: fair(),
        begins: 0,
        room: 100_000,
        breaks: None,
        choice: 0,
    }
}

/// The calls that fail.
fn failing(alloc: Global, call: Option<u32>) -> Result<CallList, AllocError> {
    let mut calls = Vec::new(alloc);
    if let Some(call) = call {
        calls.push(call)?;
    }
    Ok(CallList::from_vec(calls))
}

/// The plan of a site.
pub(crate) fn plan(alloc: Global, outside: Outside) -> Result<SitePlan, AllocError> {
    let failing = failing(alloc, outside.failing)?;
    let weather = Vec::from_array(alloc, outside.weather)?;
    Ok(SitePlan {
        room: outside.room,
        calls: outside.calls,
        start: 0,
        stop_clock: outside.stop_clock,
        failing,
        weather: WeatherList::from_vec(weather),
    })
}

/// A link over which these bytes come.
pub(crate) fn link(alloc: Global, around: Around, bytes: &[u8]) -> Result<MemoryLink, AllocError> {
    let mut pieces = Vec::new(alloc);
    if !bytes.is_empty() {
        pieces.push(Bytes::from_slice(alloc, bytes)?)?;
    }
    let failing = failing(alloc, around.breaks)?;
    MemoryLink::new(alloc, Pieces::from_vec(pieces), failing, around.room)
}

/// A site with these files.
pub(crate) fn site(alloc: Global, around: Around, kept: &Kept) -> Result<MemorySite, AllocError> {
    let filled = kept.filled(alloc)?;
    let plan = plan(alloc, around.outside)?;
    let mut site = filled.crash_with(0, plan)?;
    if around.begins > 0 {
        site.reach(around.begins);
    }
    Ok(site)
}
