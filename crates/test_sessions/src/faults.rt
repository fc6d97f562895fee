// Device calls of an engine that fail, and crashes behind them.
use crate::engines::add_calls;
use crate::texts::no_row;
use flow_engine::EngineError;
use std::alloc::{AllocError, Global};
use test_engine_plays::{Answer, Call, EnginePlay, Life, Played};
use test_rows::Row;
use test_session_plays::{Book, text};

/// How a run goes.
#[derive(Clone, Copy)]
struct Way<'a> {
    /// The playbook's text.
    text: &'a str,
    /// How many records the whole run has.
    records: u32,
    calls: &'a [Call<'a>],
}

/// What became of a run of which a device call failed.
#[derive(Clone, Copy)]
enum Found {
    /// There was no such call: the run went to its end.
    Whole,
    /// The opening failed.
    Unopened,
    /// A call failed after so many records, and the next one was refused as broken.
    Broken { records: u32 },
    /// Something else came.
    Else,
}

/// What became of a run that was opened.
fn found_in(life: &Life) -> Found {
    match life.answers.last() {
        Some(Answer::Refused(EngineError::Disk)) if life.is_broken => Found::Broken {
            records: life.records,
        },
        Some(Answer::Refused(_)) => Found::Else,
        _ => Found::Whole,
    }
}

/// What became of a run.
fn found_by(played: &Played) -> Found {
    match played {
        Played::Lived(life) => found_in(life),
        Played::Unopened(EngineError::Disk) => Found::Unopened,
        _ => Found::Else,
    }
}

/// Whether so many records are right behind what was found: those that were acknowledged, or one more where a call failed.
fn is_right(way: Way<'_>, found: Found, held: u32) -> bool {
    match found {
        Found::Whole => held == way.records,
        Found::Unopened => held == 0,
        Found::Broken { records } => held == records || held == records.saturating_add(1),
        Found::Else => false,
    }
}

/// Whether a run goes right where the device call of this number fails and a crash that is picked so follows.
fn goes_right(alloc: Global, way: Way<'_>, call: u32, choice: u64) -> Result<bool, AllocError> {
    let mut play = EnginePlay::new(alloc, Some(call))?;
    let found = found_by(&play.play(way.text, 7, way.calls)?);
    let mut play = play.crash(choice)?;
    match play.play(way.text, 7, &[])? {
        Played::Lived(life) => Ok(is_right(way, found, life.records)),
        _ => Ok(false),
    }
}

/// How many of eight crashes go right behind a device call of this number that fails.
fn right_behind(alloc: Global, way: Way<'_>, call: u32) -> Result<u32, AllocError> {
    let mut right = 0u32;
    for choice in 0..8u64 {
        if goes_right(alloc, way, call, choice)? {
            right = right.saturating_add(1);
        }
    }
    Ok(right)
}

/// How many runs go right and wrong, over each of the first 30 device calls and eight crashes behind it.
fn counts(alloc: Global, way: Way<'_>) -> Result<String, AllocError> {
    let mut right = 0u32;
    for call in 0..30u32 {
        right = right.saturating_add(right_behind(alloc, way, call)?);
    }
    let wrong = 240u32.saturating_sub(right);
    format!(in alloc; "right {right}, wrong {wrong}")
}

/// Each device call of a row's calls fails, and a crash follows.
pub(crate) fn faults(alloc: Global, row: &Row) -> Result<String, AllocError> {
    let mut calls = Vec::new(alloc);
    if !add_calls(&mut calls, row)? {
        return no_row(alloc);
    }
    match (Book::named(row.text(2)), row.text(3).parse::<u32>()) {
        (Some(book), Ok(records)) => {
            let text = text(alloc, book)?;
            let way = Way {
                text: text.as_str(),
                records,
                calls: calls.as_slice(),
            };
            counts(alloc, way)
        }
        _ => no_row(alloc),
    }
}
