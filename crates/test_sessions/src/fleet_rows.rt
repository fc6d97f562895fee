// Rows of fleets.
use crate::fleet_stops::{failures, stops};
use crate::said::{copy, fill, held, left, session, size};
use crate::sites::{is_site, play_at};
use crate::texts::{fleet_close, fleet_error, no_row};
use std::alloc::{AllocError, Global};
use std::io;
use std::rt::Files;
use test_rows::{Row, Tally, read_file};
use test_session_plays::{Book, FleetCame, Play, Run, fair};

/// What a row asks of a fleet.
#[derive(Drop)]
pub(crate) struct Fleet {
    pub(crate) runs: Vec<Run>,
    pub(crate) most: u64,
}

/// Takes a word: how many records may be appended, or a run's number and its playbook; false where it is neither.
fn take(fleet: &mut Fleet, word: &str) -> Result<bool, AllocError> {
    let Some((name, text)) = word.split_once('=') else {
        return Ok(false);
    };
    if name == "most" {
        let Ok(most) = text.parse::<u64>() else {
            return Ok(false);
        };
        fleet.most = most;
        return Ok(true);
    }
    match (name.parse::<u64>(), Book::named(text)) {
        (Ok(number), Some(book)) => {
            fleet.runs.push(Run { number, book })?;
            Ok(true)
        }
        _ => Ok(false),
    }
}

/// What these words ask; nothing where one of them says nothing.
fn fleet_of(alloc: Global, words: &str) -> Result<Option<Fleet>, AllocError> {
    let mut fleet = Fleet {
        runs: Vec::new(alloc),
        most: 1_000_000_000,
    };
    for word in words.split(' ') {
        if !take(&mut fleet, word)? {
            return Ok(None);
        }
    }
    Ok(Some(fleet))
}

/// What came of a fleet.
fn came_text(alloc: Global, came: FleetCame) -> Result<String, AllocError> {
    match came {
        FleetCame::NoSetup => String::from_str(alloc, "no setup"),
        FleetCame::NoRuns => String::from_str(alloc, "no runs"),
        FleetCame::Closed(close) => fleet_close(alloc, close),
        FleetCame::Refused(error) => fleet_error(alloc, error),
    }
}

/// Plays a fleet: the lines that it said and what came of it.
fn play_fleet(alloc: Global, play: &mut Play, row: &Row) -> Result<String, AllocError> {
    let Some(asked) = fleet_of(alloc, row.text(2))? else {
        return no_row(alloc);
    };
    let before = play.line_count();
    let came = play.fleet(asked.runs.as_slice(), asked.most);
    let mut said = String::new(alloc);
    for number in before..play.line_count() {
        said.push_str(play.line(number)?.as_str())?;
    }
    said.push_str(came_text(alloc, came)?.as_str())?;
    Ok(said)
}

/// Writes a run file from its front on.
fn fill_run(alloc: Global, play: &mut Play, row: &Row) -> Result<String, AllocError> {
    match row.text(2).parse::<u8>() {
        Ok(number) if play.fill_run(number, row.bytes(3)) => String::from_str(alloc, "written"),
        _ => String::from_str(alloc, "not written"),
    }
}

/// How many bytes a run file has.
fn run_size(alloc: Global, play: &mut Play, row: &Row) -> Result<String, AllocError> {
    let Ok(number) = row.text(2).parse::<u8>() else {
        return no_row(alloc);
    };
    match play.run_size(number) {
        Some(size) => format!(in alloc; "{size}"),
        None => String::from_str(alloc, "not read"),
    }
}

/// What came of a row.
fn came(alloc: Global, play: &mut Play, row: &Row) -> Result<String, AllocError> {
    if !is_site(row.text(1)) {
        return no_row(alloc);
    }
    match row.text(0) {
        "fleet" => play_fleet(alloc, play, row),
        "session" => session(alloc, play, row),
        "fill" => fill(alloc, play, row),
        "copy" => copy(alloc, play, row),
        "size" => size(alloc, play, row),
        "fill run" => fill_run(alloc, play, row),
        "run size" => run_size(alloc, play, row),
        "held" => held(alloc, play),
        "left" => left(alloc, play),
        "stops" => stops(alloc),
        "failures" => failures(alloc),
        _ => no_row(alloc),
    }
}

/// Plays the rows of fleets; whether all agreed.
pub(crate) fn play(rt: &(impl Print + Files + AllocGlobal)) -> io::Result<bool> {
    let rows = read_file(rt, "fleets.rows")?;
    let mut tally = Tally::new(rt.alloc(), "fleets")?;
    let mut play = Play::new(rt.alloc(), fair())?;
    for row in rows.as_slice() {
        play = play_at(rt.alloc(), play, row.text(1))?;
        let came = came(rt.alloc(), &mut play, row)?;
        tally.compare(rt, row, came.as_str().as_bytes())?;
    }
    tally.end(rt)
}
