// The lines that fleets said.
use crate::calls::Run;
use crate::looks::Look;
use crate::parcels::place_of;
use cacao_site_memory::MemorySite;
use std::alloc::AllocError;
use std::str::from_utf8;

/// The record whose line was said: the place of its run, and its number.
#[derive(Clone, Copy)]
pub(crate) struct Said {
    pub(crate) place: usize,
    pub(crate) number: u32,
}

/// The number whose decimal a text is: it has no sign, and no zero before other digits.
fn decimal(text: &str) -> Option<u64> {
    if text.starts_with("+") || text.starts_with("0") && text != "0" {
        return None;
    }
    match text.parse::<u64>() {
        Ok(number) => Some(number),
        Err(_) => None,
    }
}

/// The record that a line names by its first two words, the number of its run and its own, and the line behind the first.
fn named<'a>(runs: &[Run], text: &'a str) -> Option<(Said, &'a str)> {
    let (head, line) = text.split_once(' ')?;
    let (word, _) = line.split_once(' ')?;
    let place = place_of(runs, decimal(head)?)?;
    match word.parse::<u32>() {
        Ok(number) => Some((Said { place, number }, line)),
        Err(_) => None,
    }
}

/// Whether a text is the line of a record, without its run's number.
fn is_line(look: &Look, said: Said, text: &str) -> Result<bool, AllocError> {
    let Some(engine) = look.engines.get(said.place) else {
        return Ok(false);
    };
    if said.number >= engine.count() {
        return Ok(false);
    }
    let line = engine.line(said.number)?;
    Ok(line.as_slice() == text.as_bytes())
}

/// The bytes of a line said; none where there is no line of that number.
fn line_bytes(site: &MemorySite, n: usize) -> &[u8] {
    if n >= site.line_count() {
        return b"";
    }
    site.line(n)
}

/// Adds the record whose line was said; false where there is none.
fn add_said(
    all: &mut Vec<Said>,
    look: &Look,
    runs: &[Run],
    line: &[u8],
) -> Result<bool, AllocError> {
    let Ok(text) = from_utf8(line) else {
        return Ok(false);
    };
    let Some((said, line)) = named(runs, text) else {
        return Ok(false);
    };
    all.push(said)?;
    is_line(look, said, line)
}

/// Adds the records of all lines said, in order; false where a line has none.
pub(crate) fn add_all_said(
    all: &mut Vec<Said>,
    look: &Look,
    runs: &[Run],
    site: &MemorySite,
) -> Result<bool, AllocError> {
    for n in 0..site.line_count() {
        if !add_said(all, look, runs, line_bytes(site, n))? {
            return Ok(false);
        }
    }
    Ok(true)
}

/// How many records of the run at a place these lines tell, where they are those from a number on, in order.
fn told_of(said: &[Said], place: usize, from: u32) -> Option<u32> {
    let mut next = from;
    for one in said {
        if one.place == place {
            if one.number != next {
                return None;
            }
            next = next.saturating_add(1);
        }
    }
    Some(next.saturating_sub(from))
}

/// How many records that a call appended were not said. `had` is how many each run had before, by place, and `said` are the lines of the
/// call. Nothing where the lines of a run are not those of its new records, in order, from the first one on.
pub(crate) fn unsaid(look: &Look, had: &[u32], said: &[Said]) -> Option<u32> {
    let mut unsaid = 0u32;
    for place in 0..had.len() {
        let told = told_of(said, place, had[place])?;
        let known = had[place].saturating_add(told);
        if look.count(place) < known {
            return None;
        }
        unsaid = unsaid.saturating_add(look.count(place).saturating_sub(known));
    }
    Some(unsaid)
}
