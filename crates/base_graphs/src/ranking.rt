// Ranks of places: no edge leads to a place of a lower rank than the one that it leaves, if the ranks are as they should be. Nothing is
// promised of the ranks here; what rests on them compares them.
ghost use Rattle.std.specs.Prelude.{◌≡◌, ◌<◌, ◌^◌};
ghost use Rattle.base_graphs.specs.Tables.{row as row_of};

use crate::places::Places;
use std::alloc::{AllocError, Global};

// A place that is to be entered, or that is left once all that it leads to was.
#[derive(Clone, Copy)]
enum Visit {
    Enter(u32),
    Leave(u32),
}

// The rank of a place that has none yet.
const UNRANKED: usize = usize::MAX;

/// The row of a place. It takes no memory.
pub(crate) fn row_at(table: &[Places], place: u32) -> &[u32]
    ensures { result.now ≡ row_of table.now place }
{
    match table.get(place as usize) {
        Some(row) => row.as_slice(),
        None => &[],
    }
}

// How many edges a table has.
fn edges_of(table: &[Places]) -> usize {
    let mut edges: usize = 0;
    for row in table {
        edges = edges.saturating_add(row.as_slice().len());
    }
    edges
}

fn add_visits(places: &[u32], work: &mut Vec<Visit>) -> Result<(), AllocError> {
    for place in places {
        work.push(Visit::Enter(*place))?;
    }
    Ok(())
}

// Enters a place that was not seen yet: it is left once the places to which it leads are.
fn enter(
    place: u32,
    free: &[Places],
    guarded: &[Places],
    seen: &mut Vec<bool>,
    work: &mut Vec<Visit>,
) -> Result<(), AllocError> {
    let Some(mark) = seen.get_mut(place as usize) else {
        return Ok(());
    };
    if *mark {
        return Ok(());
    }
    *mark = true;
    work.push(Visit::Leave(place))?;
    add_visits(row_at(free, place), work)?;
    add_visits(row_at(guarded, place), work)?;
    Ok(())
}

/// The places that are reached from the first ones, in the order in which they are left, where all edges are followed.
pub(crate) fn leaving_order(
    alloc: Global,
    count: usize,
    free: &[Places],
    guarded: &[Places],
    first: &[u32],
) -> Result<Vec<u32>, AllocError> {
    let mut seen = vec![in alloc; false; count]?;
    let mut work = Vec::new(alloc);
    add_visits(first, &mut work)?;
    let edges = edges_of(free).saturating_add(edges_of(guarded));
    let visits = edges.saturating_add(count).saturating_add(first.len());
    let mut order = Vec::new(alloc);
    for _ in 0..visits {
        match work.pop() {
            Some(Visit::Enter(place)) => enter(place, free, guarded, &mut seen, &mut work)?,
            Some(Visit::Leave(place)) => order.push(place)?,
            None => break,
        }
    }
    Ok(order)
}

fn places_below(alloc: Global, count: usize) -> Result<Vec<u32>, AllocError>
    requires { count < 2 ^ 32 }
{
    let mut places = Vec::new(alloc);
    for place in 0..count {
        places.push(place as u32)?;
    }
    Ok(places)
}

// Gives a place that has none yet a rank, and lets what leads to it wait for the same.
fn give(
    place: u32,
    rank: usize,
    ranks: &mut Vec<usize>,
    work: &mut Vec<u32>,
) -> Result<(), AllocError> {
    let Some(old) = ranks.get_mut(place as usize) else {
        return Ok(());
    };
    if *old == UNRANKED {
        *old = rank;
        work.push(place)?;
    }
    Ok(())
}

fn give_all(
    places: &[u32],
    rank: usize,
    ranks: &mut Vec<usize>,
    work: &mut Vec<u32>,
) -> Result<(), AllocError> {
    for place in places {
        give(*place, rank, ranks, work)?;
    }
    Ok(())
}

// Gives a rank to a place and to all that lead to it, of those that have none yet. Each of these waits once.
fn rank_from(
    alloc: Global,
    place: u32,
    rank: usize,
    back_free: &[Places],
    back_guarded: &[Places],
    ranks: &mut Vec<usize>,
) -> Result<(), AllocError> {
    let mut work = Vec::new(alloc);
    give(place, rank, ranks, &mut work)?;
    for _ in 0..ranks.len() {
        let Some(next) = work.pop() else {
            break;
        };
        give_all(row_at(back_free, next), rank, ranks, &mut work)?;
        give_all(row_at(back_guarded, next), rank, ranks, &mut work)?;
    }
    Ok(())
}

/// A rank for each place: places that lead to one another have one rank, and of other places none leads to a lower rank. They
/// are found in two walks along all edges: places are ranked from the one that the first walk leaves last, each with all that lead to it.
pub(crate) fn ranks_of(
    alloc: Global,
    count: usize,
    free: &[Places],
    guarded: &[Places],
    back_free: &[Places],
    back_guarded: &[Places],
) -> Result<Vec<usize>, AllocError>
    requires { count < 2 ^ 32 }
{
    let all = places_below(alloc, count)?;
    let order = leaving_order(alloc, count, free, guarded, &all)?;
    let mut ranks = vec![in alloc; UNRANKED; count]?;
    for (rank, place) in order.iter().rev().enumerate() {
        rank_from(alloc, *place, rank, back_free, back_guarded, &mut ranks)?;
    }
    Ok(ranks)
}
