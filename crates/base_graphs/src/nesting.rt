// The guards inside which places stand, found in one walk and tested along all edges. Nothing is promised of how they are found; what
// is told rests on the test.
ghost use Rattle.std.specs.Prelude.{◌≡◌, ◌<◌, ◌^◌, ℕ, length, Contains, IfOk, IsTrue, slice_index_or, false};
ghost use Rattle.base_graphs.specs.Tables.{IsMarked};
ghost use Rattle.base_graphs.specs.Nests.{TellsGuards, Fits, AllFit, StandsFree};

use crate::nests::Nests;
use crate::places::Places;
use crate::ranking::{leaving_order, row_at};
use std::alloc::{AllocError, Global};

fn is_found(found: &[bool], place: u32) -> bool
    ensures { result ≡ slice_index_or found.now place false }
{
    match found.get(place as usize) {
        Some(mark) => *mark,
        None => false,
    }
}

fn mark(found: &mut [bool], place: u32) {
    if let Some(mark) = found.get_mut(place as usize) {
        *mark = true;
    }
}

// What edges into a place leave to be told of it: nothing was said yet, or this guard, or none.
#[derive(Clone, Copy)]
enum Told {
    Nothing,
    Guard(Option<u32>),
}

// What is left to be told along one more edge that leads from a place.
fn meet_edge(nests: &Nests, from: u32, is_guarded: bool, told: Told) -> Told {
    let guard = if is_guarded {
        Some(from)
    } else {
        nests.inner_at(from)
    };
    match told {
        Told::Nothing => Told::Guard(guard),
        Told::Guard(other) => Told::Guard(nests.meet(other, guard)),
    }
}

// The same along the edges from those of the places that were found.
fn meet_edges(nests: &Nests, found: &[bool], places: &[u32], is_guarded: bool, told: Told) -> Told {
    let mut told = told;
    for from in places {
        if is_found(found, *from) {
            told = meet_edge(nests, *from, is_guarded, told);
        }
    }
    told
}

// Finds a place: its innermost guard is the one that all edges from places found before leave to be told.
fn find(
    nests: &mut Nests,
    found: &mut [bool],
    place: u32,
    back_free: &[Places],
    back_guarded: &[Places],
) {
    if is_found(found, place) {
        return;
    }
    let told = meet_edges(nests, found, row_at(back_free, place), false, Told::Nothing);
    let told = meet_edges(nests, found, row_at(back_guarded, place), true, told);
    if let Told::Guard(Some(guard)) = told {
        nests.tell(place, guard);
    }
    mark(found, place);
}

// Whether an edge fits what is told of its ends.
fn fits(nests: &Nests, found: &[bool], is_guarded: bool, from: u32, to: u32) -> bool
    ensures { IsTrue result → Fits is_guarded found.now nests.now from to }
{
    if !is_found(found, to) {
        return false;
    }
    let Some(guard) = nests.inner_at(to) else {
        return true;
    };
    (is_guarded && from == guard) || nests.encloses(guard, from)
}

// Whether each edge from a place to these does.
fn row_fits(nests: &Nests, found: &[bool], is_guarded: bool, from: u32, places: &[u32]) -> bool
    ensures { IsTrue result → (to : ℕ) → Contains places.now to → Fits is_guarded found.now nests.now from to }
{
    for to in places {
        if !fits(nests, found, is_guarded, from, *to) {
            return false;
        }
    }
    true
}

// The same, if the place was found.
fn place_fits(nests: &Nests, found: &[bool], is_guarded: bool, from: u32, places: &[u32]) -> bool
    ensures { IsTrue result → (to : ℕ) → IsMarked found.now from → Contains places.now to → Fits is_guarded found.now nests.now from to }
{
    if !is_found(found, from) {
        return true;
    }
    row_fits(nests, found, is_guarded, from, places)
}

// Whether each edge of a table does that leaves a place that was found.
fn all_fit(nests: &Nests, found: &[bool], is_guarded: bool, table: &[Places]) -> bool
    requires { length table.now < 2 ^ 32 }
    ensures { IsTrue result → AllFit is_guarded found.now nests.now table.now }
{
    for (from, row) in table.iter().enumerate() {
        if !place_fits(nests, found, is_guarded, from as u32, row.as_slice()) {
            return false;
        }
    }
    true
}

fn stands_free(nests: &Nests, found: &[bool], place: u32) -> bool
    ensures { IsTrue result → StandsFree found.now nests.now place }
{
    is_found(found, place) && nests.inner_at(place).is_none()
}

fn all_stand_free(nests: &Nests, found: &[bool], places: &[u32]) -> bool
    ensures { IsTrue result → (place : ℕ) → Contains places.now place → StandsFree found.now nests.now place }
{
    for place in places {
        if !stands_free(nests, found, *place) {
            return false;
        }
    }
    true
}

// The test: whether what is told holds along all edges, and of the first places.
fn all_hold(
    nests: &Nests,
    found: &[bool],
    free: &[Places],
    guarded: &[Places],
    first: &[u32],
) -> bool
    requires few_free { length free.now < 2 ^ 32 }
    requires few_guarded { length guarded.now < 2 ^ 32 }
    ensures { IsTrue result → TellsGuards free.now guarded.now first.now nests.now }
{
    if !all_stand_free(nests, found, first) {
        return false;
    }
    if !all_fit(nests, found, false, free) {
        return false;
    }
    all_fit(nests, found, true, guarded)
}

/// Guards inside which the places of a graph of so many places stand: each way from the first places to a place takes a guarded edge
/// that leaves each of its guards. Not all need be told. They are found in one walk along all edges, for which the tables that lead
/// backwards are taken as they are said to be, and nothing is told where loops are entered at several places.
pub fn nests_of(
    alloc: Global,
    count: usize,
    free: &[Places],
    guarded: &[Places],
    back_free: &[Places],
    back_guarded: &[Places],
    first: &[u32],
) -> Result<Nests, AllocError>
    requires few_free { length free.now < 2 ^ 32 }
    requires few_guarded { length guarded.now < 2 ^ 32 }
    ensures { IfOk result (TellsGuards free.now guarded.now first.now) }
{
    let order = leaving_order(alloc, count, free, guarded, first)?;
    let mut nests = Nests::over(alloc, count)?;
    let mut found = vec![in alloc; false; count]?;
    for place in first {
        mark(&mut found, *place);
    }
    for place in order.iter().rev() {
        find(&mut nests, &mut found, *place, back_free, back_guarded);
    }
    if !all_hold(&nests, &found, free, guarded, first) {
        return Ok(Nests::new(alloc));
    }
    Ok(nests)
}
