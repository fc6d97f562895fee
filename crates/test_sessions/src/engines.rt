// Rows of engines.
use crate::faults::faults;
use crate::texts::{engine_error, no_row};
use std::alloc::{AllocError, Global};
use std::io;
use std::rt::Files;
use test_engine_plays::{Answer, Call, EnginePlay, Life, Played};
use test_rows::{Row, Tally, read_file};
use test_session_plays::{Book, cut, text};

/// The number that a text is.
fn number(text: &str) -> Option<u64> {
    match text.parse::<u64>() {
        Ok(number) => Some(number),
        Err(_) => None,
    }
}

/// The put of a text with a moment and an issue.
fn put(text: &str) -> Option<Call<'_>> {
    let (moment, issue) = text.split_once(' ')?;
    Some(Call::Put {
        moment: number(moment)?,
        issue: u32::try_from(number(issue)?).ok()?,
    })
}

/// The reply of a text with a moment, the number of a filter, that of a run, and bytes.
fn reply(text: &str) -> Option<Call<'_>> {
    let (moment, rest) = text.split_once(' ')?;
    let (agent, rest) = rest.split_once(' ')?;
    let (run, text) = rest.split_once(' ')?;
    Some(Call::Reply {
        moment: number(moment)?,
        agent: u8::try_from(number(agent)?).ok()?,
        run: number(run)?,
        text,
    })
}

/// The call of a name and what stands behind it.
fn call_of<'a>(name: &str, rest: &'a str) -> Option<Call<'a>> {
    match name {
        "start" => Some(Call::Start {
            moment: number(rest)?,
        }),
        "begin" => Some(Call::Begin {
            moment: number(rest)?,
        }),
        "upgrade" => Some(Call::Upgrade {
            moment: number(rest)?,
        }),
        "expire" => Some(Call::Expire {
            moment: number(rest)?,
        }),
        "put" => put(rest),
        "reply" => reply(rest),
        "next" => Some(Call::Next),
        _ => None,
    }
}

/// The call of a field.
fn call(field: &str) -> Option<Call<'_>> {
    match field.split_once(' ') {
        Some((name, rest)) => call_of(name, rest),
        None => call_of(field, ""),
    }
}

/// Adds the calls of a row, from its fifth field to its last but one; false where one is none.
pub(crate) fn add_calls<'a>(calls: &mut Vec<Call<'a>>, row: &'a Row) -> Result<bool, AllocError> {
    for n in 4..row.count().saturating_sub(1) {
        match call(row.text(n)) {
            Some(call) => calls.push(call)?,
            None => return Ok(false),
        }
    }
    Ok(true)
}

/// Adds what a call answered.
fn add_answer(said: &mut String, alloc: Global, answer: Answer) -> Result<(), AllocError> {
    match answer {
        Answer::Done => said.push_str("done\n"),
        Answer::Nothing => said.push_str("nothing\n"),
        Answer::Next(Some((moment, issue))) => writeln!(said, "{moment} {issue}"),
        Answer::Next(None) => said.push_str("-\n"),
        Answer::Refused(error) => {
            said.push_str(engine_error(alloc, error)?.as_str())?;
            said.push_str("\n")
        }
    }
}

/// The answers, how many records there are, and their lines.
fn life_text(alloc: Global, life: &Life) -> Result<String, AllocError> {
    let mut said = String::new(alloc);
    for answer in life.answers.as_slice() {
        add_answer(&mut said, alloc, *answer)?;
    }
    let records = life.records;
    writeln!(said, "records {records}")?;
    said.push_str(cut(alloc, life.lines.as_str())?.as_str())?;
    Ok(said)
}

/// What came of an engine that was opened for a run.
fn played_text(alloc: Global, played: &Played) -> Result<String, AllocError> {
    match played {
        Played::NoSetup => String::from_str(alloc, "no setup"),
        Played::Unopened(error) => engine_error(alloc, *error),
        Played::Lived(life) => life_text(alloc, life),
    }
}

/// Opens file 0 for a run of a playbook, makes the calls of the row, and tells what came of them.
fn live(alloc: Global, play: &mut EnginePlay, row: &Row) -> Result<String, AllocError> {
    let mut calls = Vec::new(alloc);
    if !add_calls(&mut calls, row)? {
        return no_row(alloc);
    }
    match (Book::named(row.text(2)), number(row.text(3))) {
        (Some(book), Some(run)) => {
            let book = text(alloc, book)?;
            let played = play.play(book.as_str(), run, calls.as_slice())?;
            played_text(alloc, &played)
        }
        _ => no_row(alloc),
    }
}

/// Writes file 0 from its front on.
fn fill(alloc: Global, play: &mut EnginePlay, row: &Row) -> Result<String, AllocError> {
    if play.fill(row.bytes(2)) {
        String::from_str(alloc, "written")
    } else {
        String::from_str(alloc, "not written")
    }
}

/// What came of a row.
fn came(alloc: Global, play: &mut EnginePlay, row: &Row) -> Result<String, AllocError> {
    match (row.text(0), row.text(1)) {
        ("fill", "new" | "here") => fill(alloc, play, row),
        ("live", "new" | "here") => live(alloc, play, row),
        ("faults", "new") => faults(alloc, row),
        _ => no_row(alloc),
    }
}

/// The site of a row: a new one, or that of the row before.
fn site(alloc: Global, play: EnginePlay, row: &Row) -> Result<EnginePlay, AllocError> {
    if row.text(1) == "new" {
        EnginePlay::new(alloc, None)
    } else {
        Ok(play)
    }
}

/// Plays the rows of the file `engine.rows`; whether all agreed.
pub(crate) fn play(rt: &(impl Print + Files + AllocGlobal)) -> io::Result<bool> {
    let rows = read_file(rt, "engine.rows")?;
    let mut tally = Tally::new(rt.alloc(), "engine")?;
    let mut play = EnginePlay::new(rt.alloc(), None)?;
    for row in rows.as_slice() {
        play = site(rt.alloc(), play, row)?;
        let came = came(rt.alloc(), &mut play, row)?;
        tally.compare(rt, row, came.as_str().as_bytes())?;
    }
    tally.end(rt)
}
