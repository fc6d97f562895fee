// What is shown of an answer.
use cacao_site::Parcel;
use std::alloc::{AllocError, Global};
use std::str::from_utf8;
use test_program_plays::{Answer, Program};
use test_session_plays::{cut, spelled_out};

/// A text with each identifier cut to its type and its last two digits. One that would not come back so is left whole, and says so.
fn short(alloc: Global, text: &str) -> Result<String, AllocError> {
    let short = cut(alloc, text)?;
    let again = spelled_out(alloc, short.as_str())?;
    if again.as_str() == text {
        return Ok(short);
    }
    format!(in alloc; "not cut: {text}")
}

/// The status, and behind it what was said, where anything was.
pub(crate) fn shown(alloc: Global, answer: &Answer) -> Result<String, AllocError> {
    if answer.text().is_empty() {
        return format!(in alloc; "{}", answer.status);
    }
    let text = short(alloc, answer.text())?;
    format!(in alloc; "{}: {text}", answer.status)
}

/// A parcel that was put: its way, agent, run, issue and bytes.
pub(crate) fn parcel(alloc: Global, parcel: &Parcel) -> Result<String, AllocError> {
    let way = if parcel.back { "from" } else { "to" };
    let bytes = match from_utf8(parcel.bytes.as_slice()) {
        Ok(text) => text,
        Err(_) => "no text",
    };
    format!(in alloc;
        "{way} {} {} {} {bytes}",
        parcel.agent, parcel.run, parcel.issue
    )
}

/// How many commands were put.
pub(crate) fn commands(program: &Program) -> u32 {
    let mut count = 0u32;
    for n in 0..program.put_count() {
        if let Some(parcel) = program.parcel(n) {
            if !parcel.back {
                count = count.saturating_add(1);
            }
        }
    }
    count
}

/// Whether a line begins with this number and the moment 0.
fn is_numbered(alloc: Global, line: &str, number: u32) -> Result<bool, AllocError> {
    let front = format!(in alloc; "{number} 0 ")?;
    Ok(line.starts_with(front.as_str()))
}

/// The status, how many lines begin with their number from 0 and the moment 0, and each other line.
pub(crate) fn records(alloc: Global, answer: &Answer) -> Result<String, AllocError> {
    let mut count = 0u32;
    let mut others = String::new(alloc);
    for line in answer.text().lines() {
        if is_numbered(alloc, line, count)? {
            count = count.saturating_add(1);
        } else {
            writeln!(others, "{line}")?;
        }
    }
    format!(in alloc; "{}: {count} records\n{others}", answer.status)
}
