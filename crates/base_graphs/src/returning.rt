// Places that may lead back to themselves.
ghost use Rattle.std.specs.Prelude.{◌≡◌, ◌↔◌, ◌<◌, ◌^◌, ℕ, [], Contains, IsTrue, IfOk, nat_le, nat_lt};
ghost use Rattle.base_graphs.specs.Closure.{Closure};
ghost use Rattle.base_graphs.specs.Tables.{IsMarked, IsWithin, Leads, row as row_of};
ghost use Rattle.base_graphs.specs.Ranks.{rank_of, stand_from as stand_from_of, stand_above as stand_above_of, NeverFalls, Stays};

use crate::bits::Bits;
use crate::places::Places;
use crate::ranking::{ranks_of, row_at};
use std::alloc::{AllocError, Global};

fn rank_at(ranks: &[usize], place: usize) -> usize
    ensures { result ≡ rank_of ranks.now place }
{
    match ranks.get(place) {
        Some(rank) => *rank,
        None => 0,
    }
}

fn is_from(ranks: &[usize], rank: usize, place: u32) -> bool
    ensures { result ≡ nat_le rank (rank_of ranks.now place) }
{
    rank <= rank_at(ranks, place as usize)
}

fn is_above(ranks: &[usize], rank: usize, place: u32) -> bool
    ensures { result ≡ nat_lt rank (rank_of ranks.now place) }
{
    rank < rank_at(ranks, place as usize)
}

// Whether each of the places has at least this rank.
fn stand_from(ranks: &[usize], rank: usize, places: &[u32]) -> bool
    ensures { result ≡ stand_from_of ranks.now rank places.now }
{
    places.iter().all(|place| is_from(ranks, rank, *place))
}

// Whether each of the places has a higher rank.
fn stand_above(ranks: &[usize], rank: usize, places: &[u32]) -> bool
    ensures { result ≡ stand_above_of ranks.now rank places.now }
{
    places.iter().all(|place| is_above(ranks, rank, *place))
}

// Whether no edge of a table leads to a lower rank.
fn never_falls(ranks: &[usize], table: &[Places]) -> bool
    ensures { IsTrue result → NeverFalls ranks.now table.now }
{
    for (from, row) in table.iter().enumerate() {
        if !stand_from(ranks, rank_at(ranks, from), row.as_slice()) {
            return false;
        }
    }
    true
}

// Whether no edge of two tables does.
fn never_fall(ranks: &[usize], one: &[Places], other: &[Places]) -> bool
    ensures one { IsTrue result → NeverFalls ranks.now one.now }
    ensures other { IsTrue result → NeverFalls ranks.now other.now }
{
    never_falls(ranks, one) && never_falls(ranks, other)
}

// Whether each edge in the row of a place leads to a higher rank.
fn rises(ranks: &[usize], table: &[Places], place: u32) -> bool
    ensures { result ≡ stand_above_of ranks.now (rank_of ranks.now place) (row_of table.now place) }
{
    stand_above(ranks, rank_at(ranks, place as usize), row_at(table, place))
}

// The places below a count of which some edge leads to no higher rank.
fn unrisen(
    alloc: Global,
    ranks: &[usize],
    count: usize,
    table: &[Places],
) -> Result<Bits, AllocError>
    requires { count < 2 ^ 32 }
    ensures { IfOk result (λ marks. (place : ℕ) → IsMarked marks place ↔ (place < count × Stays ranks.now table.now place)) }
{
    let mut marks = Bits::unmarked(alloc, count)?;
    for place in 0..count {
        if !rises(ranks, table, place as u32) {
            marks.mark(place as u32);
        }
    }
    Ok(marks)
}

/// Places in a graph of so many places that may lead back to themselves, by a guarded edge first and then by any edges. A place that is
/// not among them does not; one that is may not. They are found in a few walks along all edges, for which the tables that lead
/// backwards are taken as they are said to be: where they are not, more places are among them.
pub fn may_return(
    alloc: Global,
    count: usize,
    free: &[Places],
    guarded: &[Places],
    back_free: &[Places],
    back_guarded: &[Places],
) -> Result<Bits, AllocError>
    requires few { count < 2 ^ 32 }
    requires free_within { IsWithin count free.now }
    requires guarded_within { IsWithin count guarded.now }
    ensures { IfOk result (λ marks. (place : ℕ) → Closure (Contains (row_of guarded.now place)) (Leads free.now guarded.now [] []) place → IsMarked marks place) }
{
    let ranks = ranks_of(alloc, count, free, guarded, back_free, back_guarded)?;
    if !never_fall(&ranks, free, guarded) {
        let all = Bits::full(alloc, count)?;
        return Ok(all);
    }
    let marks = unrisen(alloc, &ranks, count, guarded)?;
    Ok(marks)
}
