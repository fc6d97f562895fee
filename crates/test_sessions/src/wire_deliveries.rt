// Lines that come in any number and order.
use crate::wire_arounds::still;
use crate::wire_asked::asked_of;
use crate::wire_runs::{Run, run_of};
use crate::wire_scene::Scene;
use std::alloc::{AllocError, Global};
use std::str::from_utf8;
use test_rows::Row;
use test_wire_plays::{Kept, alone, answer, ask, calm};

/// Adds the line of this number, from 1; nothing where it is 0.
fn add_line(bytes: &mut Vec<u8>, lines: &str, number: u32) -> Result<(), AllocError> {
    let mut count = 0u32;
    for line in lines.lines() {
        count = count.saturating_add(1);
        if count == number {
            bytes.extend_from_slice(line.as_bytes())?;
            bytes.push(b'\n')?;
        }
    }
    Ok(())
}

/// How many lines there are.
fn line_count(lines: &str) -> u32 {
    let mut count = 0u32;
    for _line in lines.lines() {
        count = count.saturating_add(1);
    }
    count
}

/// Whether a line is among these.
fn has_line(lines: &str, wanted: &str) -> bool {
    for line in lines.lines() {
        if line == wanted {
            return true;
        }
    }
    false
}

/// Each line once, in the order in which they came first.
fn distinct(alloc: Global, bytes: &[u8]) -> Result<String, AllocError> {
    let mut lines = String::new(alloc);
    if let Ok(text) = from_utf8(bytes) {
        for line in text.lines() {
            if !has_line(lines.as_str(), line) {
                lines.push_str(line)?;
                lines.push_str("\n")?;
            }
        }
    }
    Ok(lines)
}

/// In how many ways three lines, each one of so many or none, may come.
fn ways(lines: u32) -> u32 {
    let each = lines.min(9).saturating_add(1);
    each.saturating_mul(each).saturating_mul(each)
}

/// The way of this number.
fn way(alloc: Global, lines: &str, number: u32) -> Result<Vec<u8>, AllocError> {
    let each = line_count(lines).min(9).saturating_add(1);
    let mut bytes = Vec::new(alloc);
    let mut rest = number;
    for _place in 0..3u8 {
        add_line(&mut bytes, lines, rest % each)?;
        rest /= each;
    }
    Ok(bytes)
}

/// How many ways were right, of how many.
#[derive(Clone, Copy)]
struct Count {
    right: u32,
    all: u32,
}

impl Count {
    fn add(&mut self, is_right: bool) {
        self.all = self.all.saturating_add(1);
        if is_right {
            self.right = self.right.saturating_add(1);
        }
    }
}

/// Whether all is right where the engine's end gets these lines on its files, and the filters have these files.
fn is_right(
    alloc: Global,
    run: &Run<'_>,
    engine: &Kept,
    filters: &Kept,
    lines: &[u8],
) -> Result<bool, AllocError> {
    let asking = ask(alloc, still(), engine, run.asked, lines)?;
    run.goes_on(alloc, &asking.kept, filters, false)
}

/// Counts the ways in which the replies to these commands may come.
fn count_replies(
    alloc: Global,
    run: &Run<'_>,
    engine: &Kept,
    commands: &[u8],
    count: Count,
) -> Result<Count, AllocError> {
    let mut count = count;
    let filters = answer(alloc, calm(), &Kept::blank(alloc), commands)?;
    let replies = distinct(alloc, filters.sent.as_slice())?;
    let lines = replies.as_str();
    for number in 0..ways(line_count(lines)) {
        let way = way(alloc, lines, number)?;
        count.add(is_right(alloc, run, engine, &filters.kept, way.as_slice())?);
    }
    Ok(count)
}

/// Counts the ways in which these commands may come, and the replies to them.
fn count_commands(
    alloc: Global,
    run: &Run<'_>,
    engine: &Kept,
    commands: &str,
) -> Result<Count, AllocError> {
    let mut count = Count { right: 0, all: 0 };
    for number in 0..ways(line_count(commands)) {
        let way = way(alloc, commands, number)?;
        count = count_replies(alloc, run, engine, way.as_slice(), count)?;
    }
    Ok(count)
}

/// Plays all ways of a run whose commands wait. The first session sends over a link that ends at once, and its clock stands; the second
/// puts all commands again when it begins.
fn count_of(alloc: Global, run: &Run<'_>) -> Result<String, AllocError> {
    let first = ask(alloc, still(), &Kept::blank(alloc), run.asked, b"")?;
    let second = ask(alloc, still(), &first.kept, run.asked, b"")?;
    let Ok(commands) = from_utf8(second.sent.as_slice()) else {
        return String::from_str(alloc, "no text");
    };
    let count = count_commands(alloc, run, &first.kept, commands)?;
    let lines = line_count(commands);
    format!(in alloc; "{lines} commands: {} of {}", count.right, count.all)
}

/// The row `deliveries BOOK NUMBERS ANSWER`.
pub(crate) fn deliveries(
    alloc: Global,
    scene: &Scene,
    row: &Row,
) -> Result<Option<String>, AllocError> {
    let Some(asked) = asked_of(scene.book(row.text(1)), row.text(2), "") else {
        return Ok(None);
    };
    let all = alone(alloc, calm(), asked)?;
    match run_of(alloc, asked, all)? {
        Some(run) => Ok(Some(count_of(alloc, &run)?)),
        None => Ok(None),
    }
}
