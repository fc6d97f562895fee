// Both ends against one another.
use crate::around::Arounds;
use crate::engine::{Asked, Asking, ask};
use crate::filters::{Answering, answer};
use crate::kept::Kept;
use std::alloc::{AllocError, Global};

/// What came of both ends.
#[derive(Drop)]
pub struct Talk {
    pub engine: Asking,
    pub filters: Answering,
    /// Whether the engine's end was played over a link that brought just what the end of the filters sent.
    pub is_settled: bool,
}

/// How often both ends are played at most.
const ROUNDS: u32 = 16;

/// What comes over the link of the filters where the engine's end gets these bytes, and what comes of both.
fn round(
    alloc: Global,
    arounds: Arounds,
    engine: &Kept,
    filters: &Kept,
    asked: Asked<'_>,
    replies: &[u8],
) -> Result<Talk, AllocError> {
    let asking = ask(alloc, arounds.engine, engine, asked, replies)?;
    let answering = answer(alloc, arounds.filters, filters, asking.sent.as_slice())?;
    let is_settled = answering.sent.as_slice() == replies;
    Ok(Talk {
        engine: asking,
        filters: answering,
        is_settled,
    })
}

/// Plays both ends on these files, each over a link that brings what the other sent.
///
/// They are played in rounds, each from the same files: what an end sends, and what it has done by then, rests on nothing but what came
/// before, so what it sent before its bytes ran out stands; in the next round more comes. The last round brings each end just what the
/// other sends in it.
pub fn play_both(
    alloc: Global,
    arounds: Arounds,
    engine: &Kept,
    filters: &Kept,
    asked: Asked<'_>,
) -> Result<Talk, AllocError> {
    let mut last = round(alloc, arounds, engine, filters, asked, b"")?;
    for _round in 0..ROUNDS {
        if last.is_settled {
            return Ok(last);
        }
        last = round(
            alloc,
            arounds,
            engine,
            filters,
            asked,
            last.filters.sent.as_slice(),
        )?;
    }
    Ok(last)
}
