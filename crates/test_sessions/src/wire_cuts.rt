// A link that is cut.
use crate::wire_arounds::around_of;
use crate::wire_asked::asked_of;
use crate::wire_runs::{Counts, Found, NONE, Run, asked_end, run_of};
use crate::wire_scene::Scene;
use std::alloc::{AllocError, Global};
use test_rows::Row;
use test_wire_plays::{Around, Arounds, Kept, alone, answer, ask, calm, play_both};

/// What was found, if what was left is right.
fn right(
    alloc: Global,
    run: &Run<'_>,
    found: Found,
    engine: &Kept,
    filters: &Kept,
) -> Result<Found, AllocError> {
    let as_alone = found != Found::Expired;
    if run.goes_on(alloc, engine, filters, as_alone)? {
        Ok(found)
    } else {
        Ok(Found::Else)
    }
}

/// How the engine's end ends where only this front of the replies comes, if all is right: the filters get what it sent.
fn cut_replies(
    alloc: Global,
    run: &Run<'_>,
    around: Around,
    front: &[u8],
) -> Result<Found, AllocError> {
    let blank = Kept::blank(alloc);
    let engine = ask(alloc, around, &blank, run.asked, front)?;
    let filters = answer(alloc, calm(), &blank, engine.sent.as_slice())?;
    if !filters.sent.as_slice().starts_with(front) {
        return Ok(Found::Else);
    }
    right(alloc, run, asked_end(&engine), &engine.kept, &filters.kept)
}

/// The same where only this front of the commands comes: the engine's end gets what was answered to it.
fn cut_commands(
    alloc: Global,
    run: &Run<'_>,
    around: Around,
    front: &[u8],
) -> Result<Found, AllocError> {
    let blank = Kept::blank(alloc);
    let filters = answer(alloc, calm(), &blank, front)?;
    let engine = ask(alloc, around, &blank, run.asked, filters.sent.as_slice())?;
    if !engine.sent.as_slice().starts_with(front) {
        return Ok(Found::Else);
    }
    right(alloc, run, asked_end(&engine), &engine.kept, &filters.kept)
}

/// Counts the cuts behind each byte of those that go one way, and where all of them come.
fn count(
    alloc: Global,
    run: &Run<'_>,
    around: Around,
    replies: bool,
    bytes: &[u8],
) -> Result<Counts, AllocError> {
    let mut counts = NONE;
    for size in 0..bytes.len() {
        let front = &bytes[..size];
        let found = if replies {
            cut_replies(alloc, run, around, front)?
        } else {
            cut_commands(alloc, run, around, front)?
        };
        counts.add(found);
    }
    let found = if replies {
        cut_replies(alloc, run, around, bytes)?
    } else {
        cut_commands(alloc, run, around, bytes)?
    };
    counts.add(found);
    Ok(counts)
}

/// Cuts the link of a run.
fn cut_run(
    alloc: Global,
    run: &Run<'_>,
    around: Around,
    replies: bool,
) -> Result<String, AllocError> {
    let blank = Kept::blank(alloc);
    let arounds = Arounds {
        engine: calm(),
        filters: calm(),
    };
    let whole = play_both(alloc, arounds, &blank, &blank, run.asked)?;
    let counts = if replies {
        count(alloc, run, around, replies, whole.filters.sent.as_slice())?
    } else {
        count(alloc, run, around, replies, whole.engine.sent.as_slice())?
    };
    counts.text(alloc)
}

/// The row `cuts WAY AROUND BOOK RUN ANSWER`.
pub(crate) fn cuts(alloc: Global, scene: &Scene, row: &Row) -> Result<Option<String>, AllocError> {
    let Some(around) = around_of(row.text(2)) else {
        return Ok(None);
    };
    let Some(asked) = asked_of(scene.book(row.text(3)), row.text(4), "") else {
        return Ok(None);
    };
    let all = alone(alloc, calm(), asked)?;
    match run_of(alloc, asked, all)? {
        Some(run) => Ok(Some(cut_run(alloc, &run, around, row.text(1) == "replies")?)),
        None => Ok(None),
    }
}
