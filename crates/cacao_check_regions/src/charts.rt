// The links of a book by the places of its steps, both ways.
ghost use Rattle.std.specs.Prelude.{◌≡◌, map, IfOk};
ghost use Rattle.cacao_check_steps.specs.Links.{next_keys, head_keys, places_of};
ghost use Rattle.cacao_check_regions.specs.Charts.{IsChartOf, next_row};

use crate::declarers::{Declarers, declarers_of};
use crate::tables::{head_table, next_table};
use base_graphs::{Bits, Nests, Places, nests_of, reached_past_guards, reversed};
use cacao_book::Book;
use cacao_check_steps::{Parts, start_row};
use std::alloc::{AllocError, Global};

/// The links of a book. A row of a table has the places to which the step at its place goes on (`next`), at which its branches begin
/// (`heads`), and the same backwards. `starts` has the places at which a run begins, `reach` those that a run reaches, `declarers`
/// those of the steps that declare a name, and `nests` tells of steps through the branches of which each way to a place leads.
pub struct Chart {
    pub next: Vec<Places>,
    pub heads: Vec<Places>,
    pub back_next: Vec<Places>,
    pub back_heads: Vec<Places>,
    pub starts: Places,
    pub reach: Bits,
    pub declarers: Declarers,
    pub nests: Nests,
}

// (by hand, and not by derive: so a drop is one call in the proofs of all who own one)
impl Drop for Chart {
    fn drop(self) {
        let Self {
            next: _,
            heads: _,
            back_next: _,
            back_heads: _,
            starts: _,
            reach: _,
            declarers: _,
            nests: _,
        } = self;
    }
}

/// The chart of a book, of whose steps these parts were read.
pub(crate) fn chart_of(alloc: Global, book: &Book, parts: &[Parts]) -> Result<Chart, AllocError>
    requires next { map next_row parts.now ≡ map (λ step. places_of book.now (next_keys step)) book.now.steps }
    requires heads { map (λ one. one.heads) parts.now ≡ map (λ step. places_of book.now (head_keys step.kind)) book.now.steps }
    ensures { IfOk result (IsChartOf book.now) }
{
    let steps = book.steps.as_slice();
    let next = next_table(alloc, parts)?;
    let heads = head_table(alloc, parts)?;
    let back_next = reversed(alloc, &next)?;
    let back_heads = reversed(alloc, &heads)?;
    let starts = start_row(alloc, book)?;
    let none = Bits::new(alloc);
    let reach = reached_past_guards(
        alloc,
        steps.len(),
        &next,
        &heads,
        &none,
        &none,
        starts.as_slice(),
    )?;
    let declarers = declarers_of(alloc, book)?;
    let nests = nests_of(
        alloc,
        steps.len(),
        &next,
        &heads,
        &back_next,
        &back_heads,
        starts.as_slice(),
    )?;
    Ok(Chart {
        next,
        heads,
        back_next,
        back_heads,
        starts,
        reach,
        declarers,
        nests,
    })
}
