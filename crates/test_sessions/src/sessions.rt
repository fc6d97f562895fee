// Rows of sessions.
use crate::said::{copy, count, fill, held, left, parcels, puts, same, session, size};
use crate::sites::{is_site, play_at};
use crate::stops::{failures, stops};
use crate::texts::no_row;
use crate::weathers::weathers;
use std::alloc::{AllocError, Global};
use std::io;
use std::rt::Files;
use test_rows::{Row, Tally, read_file};
use test_session_plays::{Play, fair};

/// What came of a row that is played on a site, or tells of it.
fn came_at(alloc: Global, play: &mut Play, row: &Row) -> Result<String, AllocError> {
    match row.text(0) {
        "session" => session(alloc, play, row),
        "count" => count(alloc, play, row),
        "fill" => fill(alloc, play, row),
        "copy" => copy(alloc, play, row),
        "size" => size(alloc, play, row),
        "same" => same(alloc, play),
        "parcels" => parcels(alloc, play),
        "puts" => puts(alloc, play),
        "held" => held(alloc, play),
        "left" => left(alloc, play),
        _ => no_row(alloc),
    }
}

/// What came of a row.
fn came(alloc: Global, play: &mut Play, row: &Row) -> Result<String, AllocError> {
    if !is_site(row.text(1)) {
        return no_row(alloc);
    }
    match row.text(0) {
        "stops" => stops(alloc),
        "failures" => failures(alloc),
        "weathers" => weathers(alloc, row),
        _ => came_at(alloc, play, row),
    }
}

/// Plays the rows of the file of this name, with `.rows` behind it; whether all agreed.
pub(crate) fn play(rt: &(impl Print + Files + AllocGlobal), name: &str) -> io::Result<bool> {
    let file = format!(in rt.alloc(); "{name}.rows")?;
    let rows = read_file(rt, file.as_str())?;
    let mut tally = Tally::new(rt.alloc(), name)?;
    let mut play = Play::new(rt.alloc(), fair())?;
    for row in rows.as_slice() {
        play = play_at(rt.alloc(), play, row.text(1))?;
        let came = came(rt.alloc(), &mut play, row)?;
        tally.compare(rt, row, came.as_str().as_bytes())?;
    }
    tally.end(rt)
}
