//! Plays rows: calls of an engine, operators' answers, sessions, fleets, tables of many runs, and both ends of a wire, all on
//! sites in memory: the ends alone, over bytes that a row names, and against one another, whole and over links that are cut,
//! behind crashes, and over lines that come in any number and order. Each file of rows lies in `data`, says in its comments what
//! its fields are and where its answers come from, and is counted in one line; each row whose answer differs is printed. In the
//! answers of sessions an identifier is cut to its type and its last two digits: `end--13` stands for
//! `end--00000000-0000-4000-8000-000000000013`.
//!
//! Behind them it plays 40 fleets under weather, from seed 121, and prints what was played and each finding. `test_sessions COUNT
//! SEED` plays no rows, and so many fleets from that seed on. The status is 1 where a row differs or something was found.
#![tactic(auto)]

mod answers;
mod asked;
mod engines;
mod faults;
mod fleet_rows;
mod fleet_stops;
mod fleet_weather;
mod said;
mod sessions;
mod sites;
mod stops;
mod texts;
mod weathers;
mod wire_arounds;
mod wire_asked;
mod wire_crashes;
mod wire_cuts;
mod wire_deliveries;
mod wire_ends;
mod wire_rows;
mod wire_runs;
mod wire_scene;
mod wire_texts;

use fleet_weather::play_fleets;
use std::process::ExitCode;
use std::rt::Files;
use std::{env, io};

/// Plays all files of rows on sites; whether all rows agreed.
fn play_sites(rt: &(impl Print + Files + AllocGlobal)) -> io::Result<bool> {
    let engine = engines::play(rt)?;
    let answers = answers::play(rt)?;
    let sessions = sessions::play(rt, "sessions")?;
    let tables = sessions::play(rt, "tables")?;
    let fleets = fleet_rows::play(rt)?;
    Ok(engine && answers && sessions && tables && fleets)
}

/// Plays all files of rows on both ends of a wire; whether all rows agreed.
fn play_wires(rt: &(impl Print + Files + AllocGlobal)) -> io::Result<bool> {
    let ends = wire_rows::play(rt, "wire_ends")?;
    let both = wire_rows::play(rt, "wire_both")?;
    Ok(ends && both)
}

/// Plays all rows, and 40 fleets; whether all rows agreed and nothing was found.
fn play_all(rt: &(impl Print + Files + AllocGlobal)) -> io::Result<bool> {
    let sites = play_sites(rt)?;
    let wires = play_wires(rt)?;
    let fleets = play_fleets(rt, 40, 121)?;
    Ok(sites && wires && fleets)
}

/// How many fleets the words ask for, and the first seed: none where they are no numbers.
fn numbers(count: &str, seed: &str) -> (u64, u64) {
    match (count.parse::<u64>(), seed.parse::<u64>()) {
        (Ok(count), Ok(seed)) => (count, seed),
        _ => (0, 0),
    }
}

/// Plays what the words ask for; whether all agreed.
fn play_asked(rt: &(impl Print + Files + AllocGlobal), words: &[String]) -> io::Result<bool> {
    match words {
        [count, seed] => {
            let (count, seed) = numbers(count.as_str(), seed.as_str());
            play_fleets(rt, count, seed)
        }
        _ => play_all(rt),
    }
}

fn main(rt: HostRuntime) -> io::Result<ExitCode> {
    let words: Vec<String> = env::args(&rt)?.skip(1).collect(rt.alloc())?;
    if play_asked(&rt, words.as_slice())? {
        Ok(ExitCode::SUCCESS)
    } else {
        Ok(ExitCode::FAILURE)
    }
}
