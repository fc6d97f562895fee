// A crash of an end.
use crate::wire_arounds::still;
use crate::wire_asked::asked_of;
use crate::wire_runs::{Counts, Found, NONE, Run, answered_end, asked_end, run_of};
use crate::wire_scene::Scene;
use std::alloc::{AllocError, Global};
use test_rows::Row;
use test_wire_plays::{Arounds, Kept, alone, calm, play_both};

/// What is outside both ends where the device of one stops behind so many calls and a crash that is picked so follows.
fn stopped(of_engine: bool, calls: u32, choice: u64) -> Arounds {
    let mut stopped = still();
    stopped.outside.calls = calls;
    stopped.choice = choice;
    if of_engine {
        Arounds {
            engine: stopped,
            filters: still(),
        }
    } else {
        Arounds {
            engine: still(),
            filters: stopped,
        }
    }
}

/// How the end ends whose device stops, if all is right behind the crash.
fn end_behind(
    alloc: Global,
    run: &Run<'_>,
    of_engine: bool,
    calls: u32,
    choice: u64,
) -> Result<Found, AllocError> {
    let blank = Kept::blank(alloc);
    let arounds = stopped(of_engine, calls, choice);
    let talk = play_both(alloc, arounds, &blank, &blank, run.asked)?;
    let right = run.goes_on(alloc, &talk.engine.kept, &talk.filters.kept, true)?;
    if !talk.is_settled || !right {
        return Ok(Found::Else);
    }
    if of_engine {
        Ok(asked_end(&talk.engine))
    } else {
        Ok(answered_end(&talk.filters))
    }
}

/// Counts eight crashes behind each number of calls, up to the first behind which the end is undisturbed.
fn count(alloc: Global, run: &Run<'_>, of_engine: bool) -> Result<Counts, AllocError> {
    let mut counts = NONE;
    for calls in 0..1_000u32 {
        if counts.ended > 0 {
            return Ok(counts);
        }
        for choice in 0..8u64 {
            counts.add(end_behind(alloc, run, of_engine, calls, choice)?);
        }
    }
    Ok(counts)
}

/// The row `crashes END BOOK NUMBERS ANSWER`.
pub(crate) fn crashes(
    alloc: Global,
    scene: &Scene,
    row: &Row,
) -> Result<Option<String>, AllocError> {
    let Some(asked) = asked_of(scene.book(row.text(2)), row.text(3), "") else {
        return Ok(None);
    };
    let all = alone(alloc, calm(), asked)?;
    match run_of(alloc, asked, all)? {
        Some(run) => {
            let counts = count(alloc, &run, row.text(1) == "engine")?;
            Ok(Some(counts.text(alloc)?))
        }
        None => Ok(None),
    }
}
