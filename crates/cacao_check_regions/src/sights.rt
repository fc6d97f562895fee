// Which steps see something of a name, all at once.
ghost use Rattle.std.specs.Prelude.{◌↔◌, ◌⊎◌, ℕ, ◌<◌, length, All, Contains, IfOk, OnOk, IsTrue, IsSome};
ghost use Rattle.base_graphs.specs.Closure.{Closure};
ghost use Rattle.cacao_check_steps.specs.Links.{declares};
ghost use Rattle.cacao_check_regions.specs.Charts.{IsChartOf, AreMarksOf, BeginsChosen, FlowsPast};

use crate::charts::Chart;
use base_graphs::{Bits, Places, reached_past_guards};
use cacao_book::Book;
use cacao_vars::Name;
use std::alloc::{AllocError, Global};

/// The marks of these places.
pub(crate) fn marked(alloc: Global, count: usize, places: &[u32]) -> Result<Bits, AllocError>
    requires { All (λ place. place < count) places.now }
    ensures { IfOk result (AreMarksOf (Contains places.now)) }
{
    let mut marks = Bits::unmarked(alloc, count)?;
    for place in places {
        marks.mark(*place);
    }
    Ok(marks)
}

/// The steps that declare a name.
pub(crate) fn declaring(
    alloc: Global,
    book: &Book,
    chart: &Chart,
    name: &Name,
) -> Result<Bits, AllocError>
    requires { IsChartOf book.now chart.now }
    ensures { IfOk result (AreMarksOf (λ place. IsSome (declares book.now name.now place))) }
{
    let places = chart.declarers.find(name);
    let marks = marked(alloc, book.steps.as_slice().len(), places)?;
    Ok(marks)
}

// The places, if they are wanted.
fn where_wanted(alloc: Global, places: &[u32], wanted: bool) -> Result<Places, AllocError>
    ensures { IfOk result (λ these. (place : ℕ) → Contains these place ↔ (IsTrue wanted × Contains places.now place)) }
{
    let mut these = Places::new(alloc);
    if wanted {
        these.append(places)?;
        return Ok(these);
    }
    Ok(these)
}

// Adds the places, if they are wanted.
fn append_where_wanted(these: &mut Places, places: &[u32], wanted: bool) -> Result<(), AllocError>
    ensures { OnOk result ((place : ℕ) → Contains these.new place ↔ (Contains these.old place ⊎ (IsTrue wanted × Contains places.now place))) }
{
    if wanted {
        these.append(places)?;
        return Ok(());
    }
    Ok(())
}

/// The heads of the chosen steps, and the places at which a run begins if these are wanted.
pub(crate) fn first_places(
    alloc: Global,
    book: &Book,
    chart: &Chart,
    chosen: &Bits,
    at_start: bool,
) -> Result<Places, AllocError>
    requires { IsChartOf book.now chart.now }
    ensures within { IfOk result (λ places. All (λ place. place < length book.now.steps) places) }
    ensures exact { IfOk result (λ places. (place : ℕ) → Contains places place ↔ BeginsChosen book.now chosen.now at_start place) }
{
    let mut places = where_wanted(alloc, chart.starts.as_slice(), at_start)?;
    for control in 0..book.steps.as_slice().len() {
        let heads = chart.heads[control].as_slice();
        append_where_wanted(&mut places, heads, chosen.has(control as u32))?;
    }
    Ok(places)
}

/// One search for all steps at once: the places outside which something stands that a chosen step declares, or the book where that is
/// wanted too, and that no step in between hides. `declaring` has the steps that hide it.
pub(crate) fn sights(
    alloc: Global,
    book: &Book,
    chart: &Chart,
    declaring: &Bits,
    chosen: &Bits,
    at_start: bool,
) -> Result<Bits, AllocError>
    requires { IsChartOf book.now chart.now }
    ensures { IfOk result (AreMarksOf (Closure (BeginsChosen book.now chosen.now at_start) (FlowsPast book.now declaring.now))) }
{
    let count = book.steps.as_slice().len();
    let none = Bits::new(alloc);
    let first = first_places(alloc, book, chart, chosen, at_start)?;
    let marks = reached_past_guards(
        alloc,
        count,
        &chart.next,
        &chart.heads,
        declaring,
        &none,
        first.as_slice(),
    )?;
    Ok(marks)
}
