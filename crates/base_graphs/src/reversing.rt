// Tables of edges, turned round.
ghost use Rattle.std.specs.Prelude.{◌≡◌, ◌<◌, ◌^◌, [], ◌∷◌, ◌++◌, length, All, IfOk, OnOk, replicate, slice_set};
ghost use Rattle.base_graphs.specs.Tables.{IsWithin, IsReverse, row as row_of};
ghost use Rattle.base_graphs.specs.Reversing.{AddsEdges};

use crate::places::Places;
use std::alloc::{AllocError, Global};

// Adds a place to a row.
fn add_at(back: &mut Vec<Places>, at: u32, place: u32) -> Result<(), AllocError>
    requires { at < length back.old.items }
    ensures { OnOk result (back.new.items ≡ slice_set back.old.items at (row_of back.old.items at ++ place ∷ [])) }
{
    let row = &mut back[at as usize];
    row.push(place)?;
    Ok(())
}

// Adds a place to the rows of these places.
fn add_edges(back: &mut Vec<Places>, from: u32, places: &[u32]) -> Result<(), AllocError>
    requires { All (λ p. p < length back.old.items) places.now }
    ensures { OnOk result (AddsEdges from places.now back.old.items back.new.items) }
{
    for place in places {
        add_at(back, *place, from)?;
    }
    Ok(())
}

fn no_edges(alloc: Global, count: usize) -> Result<Vec<Places>, AllocError>
    ensures { IfOk result (λ rows. rows.items ≡ replicate count []) }
{
    let mut rows = Vec::new(alloc);
    for _ in 0..count {
        rows.push(Places::new(alloc))?;
    }
    Ok(rows)
}

/// The table turned round: it leads from one place to another exactly where the given one leads from the other to the one.
pub fn reversed(alloc: Global, rows: &[Places]) -> Result<Vec<Places>, AllocError>
    requires few { length rows.now < 2 ^ 32 }
    requires within { IsWithin (length rows.now) rows.now }
    ensures len { IfOk result (λ back. length back.items ≡ length rows.now) }
    ensures within { IfOk result (λ back. IsWithin (length rows.now) back.items) }
    ensures edges { IfOk result (λ back. IsReverse rows.now back.items) }
{
    let mut back = no_edges(alloc, rows.len())?;
    for (from, row) in rows.iter().enumerate() {
        add_edges(&mut back, from as u32, row.as_slice())?;
    }
    Ok(back)
}
