// The places that are reached along edges.
ghost use Rattle.std.specs.Prelude.{◌≡◌, ◌↔◌, ℕ, ◌<◌, length, [], ◌∷◌, All, Contains, OnOk, IfOk};
ghost use Rattle.base_graphs.specs.Closure.{Closure};
ghost use Rattle.base_graphs.specs.Tables.{IsMarked, IsWithin, Leads, row as row_of};
ghost use Rattle.base_graphs.specs.Searching.{Marks, IsOpenIn};

use crate::bits::Bits;
use crate::places::Places;
use std::alloc::{AllocError, Global};

// Marks a place that is not blocked. Where it is newly marked, it stands at the end of the work.
fn mark_place(
    place: u32,
    blocked: &Bits,
    marks: &mut Bits,
    work: &mut Vec<u32>,
) -> Result<(), AllocError>
    requires { place < length marks.old }
    ensures { OnOk result (Marks (IsOpenIn (place ∷ []) blocked.now) marks.old work.old.items marks.new work.new.items) }
{
    if blocked.has(place) {
        return Ok(());
    }
    if marks.has(place) {
        return Ok(());
    }
    work.push(place)?;
    marks.mark(place);
    Ok(())
}

// Marks the places of a row that are not blocked. What is newly marked stands at the end of the work.
fn mark_row(
    row: &[u32],
    blocked: &Bits,
    marks: &mut Bits,
    work: &mut Vec<u32>,
) -> Result<(), AllocError>
    requires { All (λ p. p < length marks.old) row.now }
    ensures { OnOk result (Marks (IsOpenIn row.now blocked.now) marks.old work.old.items marks.new work.new.items) }
{
    for place in row {
        mark_place(*place, blocked, marks, work)?;
    }
    Ok(())
}

// Marks the places in the row of a place that are not blocked.
fn mark_from(
    place: u32,
    table: &[Places],
    blocked: &Bits,
    marks: &mut Bits,
    work: &mut Vec<u32>,
) -> Result<(), AllocError>
    requires { IsWithin (length marks.old) table.now }
    ensures { OnOk result (Marks (IsOpenIn (row_of table.now place) blocked.now) marks.old work.old.items marks.new work.new.items) }
{
    let at = place as usize;
    if at >= table.len() {
        return Ok(());
    }
    mark_row(table[at].as_slice(), blocked, marks, work)?;
    Ok(())
}

// Marks what a place leads to. What is newly marked stands at the end of the work.
fn expand(
    place: u32,
    free: &[Places],
    guarded: &[Places],
    shut: &Bits,
    blocked: &Bits,
    none: &Bits,
    marks: &mut Bits,
    work: &mut Vec<u32>,
) -> Result<(), AllocError>
    requires free_within { IsWithin (length marks.old) free.now }
    requires guarded_within { IsWithin (length marks.old) guarded.now }
    requires none { none.now ≡ [] }
    ensures { OnOk result (Marks (Leads free.now guarded.now shut.now blocked.now place) marks.old work.old.items marks.new work.new.items) }
{
    mark_from(place, free, none, marks, work)?;
    if shut.has(place) {
        return Ok(());
    }
    mark_from(place, guarded, blocked, marks, work)?;
    Ok(())
}

/// The places that are reached from the first ones, themselves included, in a graph of so many places: along free edges always, and
/// along guarded edges that leave no place of `shut` and enter none of `blocked`.
pub fn reached_past_guards(
    alloc: Global,
    count: usize,
    free: &[Places],
    guarded: &[Places],
    shut: &Bits,
    blocked: &Bits,
    first: &[u32],
) -> Result<Bits, AllocError>
    requires free_within { IsWithin count free.now }
    requires guarded_within { IsWithin count guarded.now }
    requires first_within { All (λ p. p < count) first.now }
    ensures len { IfOk result (λ marks. length marks ≡ count) }
    ensures exact { IfOk result (λ marks. (p : ℕ) → IsMarked marks p ↔ Closure (Contains first.now) (Leads free.now guarded.now shut.now blocked.now) p) }
{
    let none = Bits::new(alloc);
    let mut marks = Bits::unmarked(alloc, count)?;
    let mut work = Vec::new(alloc);
    mark_row(first, &none, &mut marks, &mut work)?;
    while let Some(place) = work.pop() {
        expand(
            place, free, guarded, shut, blocked, &none, &mut marks, &mut work,
        )?;
    }
    Ok(marks)
}

/// The places that are reached from the first ones along the edges of a table, themselves included.
pub fn reached(
    alloc: Global,
    count: usize,
    edges: &[Places],
    first: &[u32],
) -> Result<Bits, AllocError>
    requires within { IsWithin count edges.now }
    requires first_within { All (λ p. p < count) first.now }
    ensures len { IfOk result (λ marks. length marks ≡ count) }
    ensures exact { IfOk result (λ marks. (p : ℕ) → IsMarked marks p ↔ Closure (Contains first.now) (λ from to. Contains (row_of edges.now from) to) p) }
{
    let none = Bits::new(alloc);
    let marks = reached_past_guards(alloc, count, edges, &[], &none, &none, first)?;
    Ok(marks)
}
