// Tables of edges from texts: `0>1 0>2 3>` are the edges from 0 to 1 and to 2, in a table whose last row is that of 3, which is empty.
ghost use Rattle.std.specs.Prelude.{◌<◌, All, IsTrue};
ghost use Rattle.base_graphs.specs.Tables.{IsWithin};

use crate::answers::place_of;
use base_graphs::Places;
use std::alloc::{AllocError, Global};

/// Adds an edge to a place, or none, in the row of another one, and the rows up to that.
fn add(alloc: Global, rows: &mut Vec<Places>, from: u32, to: &str) -> Result<(), AllocError> {
    let end = from as usize + 1;
    for _ in rows.len()..end {
        rows.push(Places::new(alloc))?;
    }
    if to.is_empty() {
        return Ok(());
    }
    match rows.get_mut(from as usize) {
        Some(row) => row.push(place_of(to)),
        None => Ok(()),
    }
}

/// The table of a text.
pub(crate) fn table(alloc: Global, text: &str) -> Result<Vec<Places>, AllocError> {
    let mut rows = Vec::new(alloc);
    for word in text.split(' ') {
        if let Some((from, to)) = word.split_once('>') {
            add(alloc, &mut rows, place_of(from), to)?;
        }
    }
    Ok(rows)
}

/// Adds a row to the text of a table.
fn put_row(text: &mut String, from: usize, places: &[u32]) -> Result<(), AllocError> {
    if places.is_empty() {
        return write!(text, " {from}>");
    }
    for place in places {
        write!(text, " {from}>{place}")?;
    }
    Ok(())
}

/// The text of a table, each of its rows in it, with a space before each edge.
pub(crate) fn table_text(alloc: Global, rows: &[Places]) -> Result<String, AllocError> {
    let mut text = String::new(alloc);
    for (from, row) in rows.iter().enumerate() {
        put_row(&mut text, from, row.as_slice())?;
    }
    Ok(text)
}

/// The places of a text.
pub(crate) fn places(alloc: Global, text: &str) -> Result<Vec<u32>, AllocError> {
    let mut places = Vec::new(alloc);
    for word in text.split(' ') {
        if !word.is_empty() {
            places.push(place_of(word))?;
        }
    }
    Ok(places)
}

/// Whether each of these places is below a count.
pub(crate) fn are_below(count: usize, places: &[u32]) -> bool
    ensures { IsTrue result → All (λ place. place < count) places.now }
{
    places.iter().all(|place| (*place as usize) < count)
}

/// Whether each place in a table is below a count.
pub(crate) fn is_within(count: usize, rows: &[Places]) -> bool
    ensures { IsTrue result → IsWithin count rows.now }
{
    rows.iter().all(|row| are_below(count, row.as_slice()))
}
