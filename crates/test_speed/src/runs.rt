// Runs that rows play.
use crate::given::{given, number, small_number};
use crate::lines::text_of;
use crate::played::Played;
use crate::refusals::{why_no_setup, why_not_taken};
use crate::setups::setup;
use crate::texts::Texts;
use flow_core::FlowError;
use std::alloc::{AllocError, Global};
use test_rows::Row;

/// Begins a run of playbooks that are read: `read RUN PLAYBOOK CALLED BINDINGS`, where each of the last two may be empty.
fn read(
    alloc: Global,
    texts: &Texts,
    played: &mut Option<Played>,
    row: &Row,
) -> Result<String, AllocError> {
    let text = texts.whole(row.text(2))?;
    let called = texts.whole(row.text(3))?;
    let bindings = texts.whole(row.text(4))?;
    match setup(alloc, text.as_str(), called.as_str(), bindings.as_str()) {
        Ok(setup) => {
            *played = Some(Played::idle(alloc, setup, number(row, 1)));
            String::from_str(alloc, "read")
        }
        Err(error) => why_no_setup(alloc, error),
    }
}

/// The moment for which a run waits.
fn due(alloc: Global, played: &Played) -> Result<String, AllocError> {
    match played.due() {
        Some(moment) => format!(in alloc; "{moment}"),
        None => String::from_str(alloc, "-"),
    }
}

/// How many bytes an issue has.
fn length(alloc: Global, played: &Played, issue: u32) -> Result<String, AllocError> {
    let length = played.bytes_of(issue).len();
    format!(in alloc; "{length}")
}

/// What is shown of a run.
fn shown(alloc: Global, played: &Played) -> Result<String, AllocError> {
    let report = played.report()?;
    String::from_str(alloc, text_of(report.as_slice()))
}

/// The line of a record, or why it was not taken.
fn told(alloc: Global, found: Result<String, FlowError>) -> Result<String, AllocError> {
    match found {
        Ok(line) => Ok(line),
        Err(error) => String::from_str(alloc, why_not_taken(error)),
    }
}

/// The same of a move; `-` where there was none.
fn told_next(
    alloc: Global,
    found: Result<Option<String>, FlowError>,
) -> Result<String, AllocError> {
    match found {
        Ok(Some(line)) => Ok(line),
        Ok(None) => String::from_str(alloc, "-"),
        Err(error) => String::from_str(alloc, why_not_taken(error)),
    }
}

/// Goes on with a run: `begin MOMENT`, `next MOMENT` for the move that comes next, `due`, `bytes ISSUE`, `length ISSUE` and `show`; and
/// what else is given from outside.
fn step(alloc: Global, played: &mut Played, row: &Row) -> Result<String, AllocError> {
    match row.text(0) {
        "begin" => {
            let item = played.begin(number(row, 1))?;
            told(alloc, played.tell(&item))
        }
        "next" => told_next(alloc, played.tell_next(number(row, 1))),
        "due" => due(alloc, played),
        "bytes" => String::from_str(alloc, text_of(played.bytes_of(small_number(row, 1)))),
        "length" => length(alloc, played, small_number(row, 1)),
        "show" => shown(alloc, played),
        _ => {
            let item = given(alloc, row)?;
            told(alloc, played.tell(&item))
        }
    }
}

/// What comes of a row, by the run that the rows before it played.
pub(crate) fn answer(
    alloc: Global,
    texts: &Texts,
    played: &mut Option<Played>,
    row: &Row,
) -> Result<String, AllocError> {
    if row.text(0) == "read" {
        return read(alloc, texts, played, row);
    }
    match played {
        Some(run) => step(alloc, run, row),
        None => String::from_str(alloc, "no run"),
    }
}
