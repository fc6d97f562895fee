//! Plays files of rows for what a packet filter, its commands, its journal and the graphs and queues of a run stand on: each row of
//! `data/` is asked, and its last field is what it must answer. Prints how many rows of each file agreed, and each row that did not.
#![tactic(auto)]

mod answers;
mod filters;
mod flows;
mod graphs;
mod guarded;
mod marks;
mod messages;
mod nets;
mod numbers;
mod queues;
mod records;
mod rules;
mod shadows;
mod tables;

use answers::Answers;
use std::io;
use std::process::ExitCode;
use std::rt::Files;
use test_rows::{Row, Tally, read_file};

/// Plays the rows of the file of this name, from these answers on.
fn play_rows(
    rt: &(impl Print + AllocGlobal),
    name: &str,
    rows: &[Row],
    answers: &mut Answers,
    tally: &mut Tally,
) -> io::Result<()> {
    for row in rows {
        let came = answers.answer(rt.alloc(), name, row)?;
        tally.compare(rt, row, came.as_bytes())?;
    }
    Ok(())
}

/// Plays the rows of the file of this name from the first on; true where all agreed.
fn play_all(rt: &(impl Print + AllocGlobal), name: &str, rows: &[Row]) -> io::Result<bool> {
    let mut tally = Tally::new(rt.alloc(), name)?;
    let mut answers = Answers::new(rt.alloc());
    let played = play_rows(rt, name, rows, &mut answers, &mut tally);
    drop(answers);
    played?;
    tally.end(rt)
}

/// Plays a file of rows; true where all agreed.
fn play(rt: &(impl Files + Print + AllocGlobal), name: &str) -> io::Result<bool> {
    let file = format!(in rt.alloc(); "{name}.rows")?;
    let rows = read_file(rt, file.as_str())?;
    play_all(rt, name, rows.as_slice())
}

fn main(rt: HostRuntime) -> io::Result<ExitCode> {
    let mut agree = true;
    for name in [
        "base_decimals",
        "oc2_nets",
        "oc2_msg",
        "slpf_rules",
        "slpf_shadow",
        "run_records",
        "base_graphs",
        "base_dues",
    ] {
        agree = play(&rt, name)? && agree;
    }
    if agree {
        Ok(ExitCode::SUCCESS)
    } else {
        Ok(ExitCode::FAILURE)
    }
}
