//! Runs of playbooks and rule tables on this machine. Without words `test_speed` plays the runs and reads the setups of its files of
//! rows, and compares; its status is 1 where anything differs. `test_speed steps LOOP MIXED DEEP` measures the runs of three playbooks, each
//! in a file, and `test_speed decide` the rule table of a packet filter: each prints a line for each measurement, with what was counted
//! and the processor time that it took. Other words print how it is called.
#![tactic(auto)]

mod commands;
mod decisions;
mod edits;
mod given;
mod lines;
mod packets;
mod played;
mod refusals;
mod report;
mod rows;
mod runs;
mod setups;
mod shadows;
mod steps;
mod tables;
mod texts;

use std::process::ExitCode;
use std::rt::Files;
use std::time::CpuClock;
use std::{env, io};

/// Measures the rule table.
fn measure_table<R: Print + CpuClock + AllocGlobal>(rt: &R) -> io::Result<ExitCode> {
    edits::measure(rt)?;
    shadows::measure(rt)?;
    decisions::measure(rt)?;
    Ok(ExitCode::SUCCESS)
}

/// Measures runs.
fn measure_runs<R: Files + Print + CpuClock + AllocGlobal>(
    rt: &R,
    turning: &str,
    mixed: &str,
    deep: &str,
) -> io::Result<ExitCode> {
    steps::measure(rt, turning, mixed, deep)?;
    Ok(ExitCode::SUCCESS)
}

/// Says how it is called.
fn usage(rt: &impl Print) -> io::Result<ExitCode> {
    println!(rt; "usage: test_speed [steps LOOP MIXED DEEP | decide]")?;
    Ok(ExitCode::SUCCESS)
}

fn main(rt: HostRuntime) -> io::Result<ExitCode> {
    let words: Vec<String> = env::args(&rt)?.skip(1).collect(rt.alloc())?;
    match words.as_slice() {
        [] => rows::compare_all(&rt),
        [word] if word.as_str() == "decide" => measure_table(&rt),
        [word, turning, mixed, deep] if word.as_str() == "steps" => {
            measure_runs(&rt, turning.as_str(), mixed.as_str(), deep.as_str())
        }
        _ => usage(&rt),
    }
}
