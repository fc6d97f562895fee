// How fast commands are read and answered.
use crate::commands::deny_text;
use crate::report::{Measurement, since, used};
use crate::tables::{MOST, delete_falling, falling};
use oc2_msg::read_command;
use slpf_rules::Table;
use std::alloc::{AllocError, Global};
use std::io;
use std::time::CpuClock;

/// The texts of so many denies.
fn texts(alloc: Global, count: u32) -> Result<Vec<String>, AllocError> {
    let mut texts = Vec::new(alloc);
    for number in 0..count {
        texts.push(deny_text(alloc, number)?)?;
    }
    Ok(texts)
}

/// Whether the text is a command.
fn is_command(alloc: Global, text: &str) -> bool {
    text.len() <= 1_048_576 && read_command(alloc, text.as_bytes()).is_ok()
}

/// How many of the texts are commands.
fn read(alloc: Global, texts: &[String]) -> usize {
    let mut count: usize = 0;
    for text in texts {
        if is_command(alloc, text.as_str()) {
            count = count.saturating_add(1);
        }
    }
    count
}

/// Measures the reading of commands.
fn measure_reading<R: Print + CpuClock + AllocGlobal>(rt: &R) -> io::Result<()> {
    let texts = texts(rt.alloc(), MOST)?;
    let start = used(rt)?;
    let found = read(rt.alloc(), texts.as_slice());
    let time = since(rt, start)?;
    Measurement {
        what: "their commands",
        rules: MOST,
        count: MOST,
        time,
        found,
        so: "read",
    }
    .say(rt)
}

/// Says how long so many inserts or deletes took, in microseconds, and how many rules the table has then.
fn say_edits(rt: &impl Print, what: &str, time: u64, found: usize) -> io::Result<()> {
    Measurement {
        what,
        rules: MOST,
        count: MOST,
        time,
        found,
        so: "held then",
    }
    .say(rt)
}

/// Measures inserts in falling order of their numbers, without the reading of commands.
fn measure_inserts<R: Print + CpuClock + AllocGlobal>(rt: &R) -> io::Result<Table> {
    let start = used(rt)?;
    let table = falling(rt.alloc(), MOST)?;
    let time = since(rt, start)?;
    say_edits(rt, "inserts in falling order", time, table.rules().len())?;
    Ok(table)
}

/// Measures as many deletes.
fn measure_deletes(rt: &(impl Print + CpuClock), table: &mut Table) -> io::Result<()> {
    let start = used(rt)?;
    delete_falling(table, MOST)?;
    let time = since(rt, start)?;
    say_edits(rt, "deletes in falling order", time, table.rules().len())
}

/// Measures the reading of commands, and inserts and deletes.
pub(crate) fn measure<R: Print + CpuClock + AllocGlobal>(rt: &R) -> io::Result<()> {
    measure_reading(rt)?;
    let mut table = measure_inserts(rt)?;
    measure_deletes(rt, &mut table)
}
