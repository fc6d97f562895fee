// Rows of graphs: `reached COUNT EDGES FIRST`, `reversed EDGES`, `past_guards COUNT FREE GUARDED SHUT BLOCKED FIRST`,
// `may_return COUNT FREE GUARDED`, `nests COUNT FREE GUARDED BACK_FREE BACK_GUARDED FIRST GUARDS` and `chain COUNT`. Rows of sets of
// places: `bits COUNT MARKED ASKED` and `no_bits ASKED`.
use crate::answers::{place_of, text_or_none, unknown};
use crate::guarded::{Guarded, MOST, turned};
use crate::marks::{marked, marked_below, marked_of};
use crate::tables::{are_below, is_within, places, table, table_text};
use base_graphs::{Bits, Nests, reached};
use std::alloc::{AllocError, Global};
use test_rows::Row;

/// The count of places in a row.
fn count_of(row: &Row) -> u32 {
    place_of(row.text(1)).min(MOST)
}

fn bits(alloc: Global, row: &Row) -> Result<String, AllocError> {
    let places_marked = places(alloc, row.text(2))?;
    let bits = marked(alloc, count_of(row) as usize, places_marked.as_slice())?;
    let asked = places(alloc, row.text(3))?;
    marked_of(alloc, &bits, asked.as_slice())
}

fn no_bits(alloc: Global, row: &Row) -> Result<String, AllocError> {
    let asked = places(alloc, row.text(1))?;
    marked_of(alloc, &Bits::new(alloc), asked.as_slice())
}

fn reached_places(alloc: Global, row: &Row) -> Result<String, AllocError> {
    let count = count_of(row);
    let edges = table(alloc, row.text(2))?;
    let first = places(alloc, row.text(3))?;
    if !is_within(count as usize, edges.as_slice())
        || !are_below(count as usize, first.as_slice())
    {
        return unknown(alloc);
    }
    let bits = reached(alloc, count as usize, edges.as_slice(), first.as_slice())?;
    marked_below(alloc, &bits, count)
}

fn reversed_table(alloc: Global, row: &Row) -> Result<String, AllocError> {
    let edges = table(alloc, row.text(1))?;
    match turned(alloc, edges.as_slice())? {
        Some(back) => table_text(alloc, back.as_slice()),
        None => unknown(alloc),
    }
}

/// The set of the places in a field, over the places of the row's graph.
fn set_of(alloc: Global, row: &Row, field: usize) -> Result<Bits, AllocError> {
    let places = places(alloc, row.text(field))?;
    marked(alloc, count_of(row) as usize, places.as_slice())
}

fn graph(alloc: Global, row: &Row) -> Result<Guarded, AllocError> {
    Guarded::read(alloc, count_of(row), row.text(2), row.text(3))
}

fn past_guards(alloc: Global, row: &Row) -> Result<String, AllocError> {
    let shut = set_of(alloc, row, 4)?;
    let blocked = set_of(alloc, row, 5)?;
    let first = places(alloc, row.text(6))?;
    graph(alloc, row)?.reached(alloc, &shut, &blocked, first.as_slice())
}

/// The places that a guard encloses.
fn enclosed(text: &mut String, nests: &Nests, guard: u32, count: u32) -> Result<(), AllocError> {
    write!(text, " {guard}:")?;
    for place in 0..count {
        if nests.encloses(guard, place) {
            write!(text, " {place}")?;
        }
    }
    Ok(())
}

/// The guards of a row's graph inside which places stand.
fn nests_of(alloc: Global, row: &Row) -> Result<Nests, AllocError> {
    let first = places(alloc, row.text(6))?;
    let graph = graph(alloc, row)?;
    let back = Guarded::read(alloc, count_of(row), row.text(4), row.text(5))?;
    graph.nests(alloc, &back, first.as_slice())
}

/// The places that each of these guards encloses.
fn enclosed_by(
    alloc: Global,
    nests: &Nests,
    guards: &[u32],
    count: u32,
) -> Result<String, AllocError> {
    let mut text = String::new(alloc);
    for guard in guards {
        enclosed(&mut text, nests, *guard, count)?;
    }
    Ok(text)
}

/// The places that each guard of the last field asked for encloses.
fn nests(alloc: Global, row: &Row) -> Result<String, AllocError> {
    let guards = places(alloc, row.text(7))?;
    let nests = nests_of(alloc, row)?;
    enclosed_by(alloc, &nests, guards.as_slice(), count_of(row))
}

/// How many of all pairs of a guard and a place are told otherwise than in a chain of places, each of which guards the next.
fn differing(nests: &Nests, guard: u32, count: u32) -> u32 {
    let mut differing: u32 = 0;
    for place in 0..count {
        if nests.encloses(guard, place) != (guard < place) {
            differing = differing.saturating_add(1);
        }
    }
    differing
}

/// The edges of a chain, from each place to the next, or back.
fn chain_edges(alloc: Global, last: u32, backward: bool) -> Result<String, AllocError> {
    let mut text = String::new(alloc);
    for place in 0..last {
        let next = place.saturating_add(1);
        if backward {
            write!(text, " {next}>{place}")?;
        } else {
            write!(text, " {place}>{next}")?;
        }
    }
    Ok(text)
}

/// The guards of a chain of so many places behind the first one.
fn chain_nests(alloc: Global, last: u32) -> Result<Nests, AllocError> {
    let count = last.saturating_add(1);
    let edges = chain_edges(alloc, last, false)?;
    let back_edges = chain_edges(alloc, last, true)?;
    let graph = Guarded::read(alloc, count, "", edges.as_str())?;
    let back = Guarded::read(alloc, count, "", back_edges.as_str())?;
    graph.nests(alloc, &back, &[0])
}

fn chain(alloc: Global, row: &Row) -> Result<String, AllocError> {
    let last = count_of(row);
    let count = last.saturating_add(1);
    let nests = chain_nests(alloc, last)?;
    let mut all: u32 = 0;
    for guard in 0..count {
        all = all.saturating_add(differing(&nests, guard, count));
    }
    format!(in alloc; "{all} differ")
}

fn answer_untrimmed(alloc: Global, row: &Row) -> Result<String, AllocError> {
    match row.text(0) {
        "bits" => bits(alloc, row),
        "no_bits" => no_bits(alloc, row),
        "reached" => reached_places(alloc, row),
        "reversed" => reversed_table(alloc, row),
        "past_guards" => past_guards(alloc, row),
        "may_return" => Guarded::returning(&graph(alloc, row)?, alloc),
        "nests" => nests(alloc, row),
        "chain" => chain(alloc, row),
        _ => unknown(alloc),
    }
}

/// What a row answers.
pub(crate) fn answer(alloc: Global, row: &Row) -> Result<String, AllocError> {
    let text = answer_untrimmed(alloc, row)?;
    text_or_none(alloc, text.as_str().trim())
}
