// How fast runs go on.
use crate::played::Played;
use crate::refusals::{why_no_setup, why_not_taken};
use crate::report::{say_records, since, used};
use crate::setups::setup;
use flow_core::{FlowError, Setup, SetupError};
use std::rt::Files;
use std::time::CpuClock;
use std::{fs, io};

/// Takes the move that comes next at a moment, in milliseconds. The moment of the next one; None where none will come.
fn take_next(played: &mut Played, moment: u64) -> Result<Option<u64>, FlowError> {
    if played.take_next(moment)? {
        return Ok(Some(moment));
    }
    Ok(played.due())
}

/// Takes its Begin, and then moves, each at the least moment at which there is one: so many of both, and waits, at the most.
fn take_many(played: &mut Played, most: u32) -> Result<(), FlowError> {
    let begin = played.begin(0)?;
    played.take(&begin)?;
    let mut moment = 0;
    for _ in 1..most {
        match take_next(played, moment)? {
            Some(next) => moment = next,
            None => return Ok(()),
        }
    }
    Ok(())
}

/// Measures a run, and says why it stopped if a record was refused.
fn measure_run(
    rt: &(impl Print + CpuClock),
    what: &str,
    played: &mut Played,
    most: u32,
) -> io::Result<()> {
    let start = used(rt)?;
    let found = take_many(played, most);
    let time = since(rt, start)?;
    say_records(rt, what, played.records(), time)?;
    match found {
        Ok(()) => Ok(()),
        Err(error) => println!(rt; "{}", why_not_taken(error)),
    }
}

/// Measures the run of these playbooks.
fn measure_setup(
    rt: &(impl Print + CpuClock + AllocGlobal),
    what: &str,
    setup: Setup,
    most: u32,
) -> io::Result<()> {
    let mut played = Played::idle(rt.alloc(), setup, 1);
    measure_run(rt, what, &mut played, most)
}

/// Says why there is no setup.
fn say_why(rt: &(impl Print + AllocGlobal), error: SetupError) -> io::Result<()> {
    let why = why_no_setup(rt.alloc(), error)?;
    println!(rt; "{why}")
}

/// Measures the run of the playbook in a file.
fn measure_file<R: Files + Print + CpuClock + AllocGlobal>(
    rt: &R,
    what: &str,
    file: &str,
    most: u32,
) -> io::Result<()> {
    let text = fs::read_to_string(rt, file)?;
    match setup(rt.alloc(), text.as_str(), "", "") {
        Ok(setup) => measure_setup(rt, what, setup, most),
        Err(error) => say_why(rt, error),
    }
}

/// Measures the runs of a loop, of 208,961 tasks with other delays, and of more tasks than a run may have, whose playbooks are in these files.
pub(crate) fn measure<R: Files + Print + CpuClock + AllocGlobal>(
    rt: &R,
    turning: &str,
    mixed: &str,
    deep: &str,
) -> io::Result<()> {
    measure_file(rt, "a loop", turning, 100_001)?;
    measure_file(rt, "a loop", turning, 600_001)?;
    measure_file(rt, "208961 tasks with other delays", mixed, 1_000_000)?;
    measure_file(rt, "too many tasks", deep, 1_000_000)
}
