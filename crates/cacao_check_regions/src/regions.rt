// Regions of a book, as sets of places.
ghost use Rattle.std.specs.Prelude.{◌↔◌, ℕ, ◌<◌, [], length, MatchOption, IfOk, IsTrue, slice_index_or};
ghost use Rattle.base_graphs.specs.Tables.{IsMarked};
ghost use Rattle.cacao_check_regions.specs.Regions.{InRegion, IsPlaced, Encloses};
ghost use Rattle.cacao_check_regions.specs.Charts.{IsChartOf, AreMarksOf, AreRegionsOf};

use crate::charts::Chart;
use crate::sights::first_places;
use base_graphs::{Bits, may_return, reached, reached_past_guards};
use cacao_book::Book;
use std::alloc::{AllocError, Global};

/// The main region of a book, and for each step its region. A step without branches has an empty one, which takes no memory.
pub struct Regions {
    pub main: Bits,
    pub controls: Vec<Bits>,
}

// (by hand, and not by derive: so a drop is one call in the proofs of all who own one)
impl Drop for Regions {
    fn drop(self) {
        let Self {
            main: _,
            controls: _,
        } = self;
    }
}

// The region of the step at a place.
fn region_at(alloc: Global, book: &Book, chart: &Chart, control: usize) -> Result<Bits, AllocError>
    requires chart { IsChartOf book.now chart.now }
    requires control { control < length book.now.steps }
    ensures { IfOk result (AreMarksOf (InRegion book.now control)) }
{
    let heads = chart.heads[control].as_slice();
    if heads.is_empty() {
        return Ok(Bits::new(alloc));
    }
    let marks = reached(alloc, book.steps.as_slice().len(), &chart.next, heads)?;
    Ok(marks)
}

/// The regions of a book.
pub fn regions_of(alloc: Global, book: &Book, chart: &Chart) -> Result<Regions, AllocError>
    requires { IsChartOf book.now chart.now }
    ensures { IfOk result (AreRegionsOf book.now) }
{
    let count = book.steps.as_slice().len();
    let main = reached(alloc, count, &chart.next, chart.starts.as_slice())?;
    let mut controls = Vec::new(alloc);
    for control in 0..count {
        controls.push(region_at(alloc, book, chart, control)?)?;
    }
    Ok(Regions { main, controls })
}

impl Regions {
    /// Whether a place stands in the region of the step at another, or in the main region where that is None. It takes no memory.
    pub(crate) fn has(&self, control: Option<u32>, place: u32) -> bool
        ensures { MatchOption control (IsTrue result ↔ IsMarked self.now.main place) (λ c. IsTrue result ↔ IsMarked (slice_index_or self.now.controls.items c []) place) }
    {
        match control {
            None => self.main.has(place),
            Some(control) => match self.controls.get(control as usize) {
                Some(region) => region.has(place),
                None => false,
            },
        }
    }
}

/// The places that stand in some region.
pub(crate) fn placed(alloc: Global, book: &Book, chart: &Chart) -> Result<Bits, AllocError>
    requires { IsChartOf book.now chart.now }
    ensures { IfOk result (AreMarksOf (IsPlaced book.now)) }
{
    let count = book.steps.as_slice().len();
    let all = Bits::full(alloc, count)?;
    let first = first_places(alloc, book, chart, &all, true)?;
    let marks = reached(alloc, count, &chart.next, first.as_slice())?;
    Ok(marks)
}

// Whether the step at a place encloses itself.
fn encloses_itself(
    alloc: Global,
    book: &Book,
    chart: &Chart,
    place: u32,
) -> Result<bool, AllocError>
    requires chart { IsChartOf book.now chart.now }
    requires place { place < length book.now.steps }
    ensures { IfOk result (λ does. IsTrue does ↔ Encloses book.now place place) }
{
    let heads = chart.heads[place as usize].as_slice();
    if heads.is_empty() {
        return Ok(false);
    }
    let none = Bits::new(alloc);
    let count = book.steps.as_slice().len();
    let marks = reached_past_guards(alloc, count, &chart.next, &chart.heads, &none, &none, heads)?;
    Ok(marks.has(place))
}

// Places of steps that may enclose themselves: no other step does.
fn may_enclose(alloc: Global, book: &Book, chart: &Chart) -> Result<Bits, AllocError>
    requires { IsChartOf book.now chart.now }
    ensures { IfOk result (λ marks. (place : ℕ) → Encloses book.now place place → IsMarked marks place) }
{
    let count = book.steps.as_slice().len();
    let marks = may_return(
        alloc,
        count,
        &chart.next,
        &chart.heads,
        &chart.back_next,
        &chart.back_heads,
    )?;
    Ok(marks)
}

// Whether the step at a place encloses itself, which only a step at a marked place may. Only such a step is searched from.
fn is_in_itself(
    alloc: Global,
    book: &Book,
    chart: &Chart,
    marks: &Bits,
    place: u32,
) -> Result<bool, AllocError>
    requires chart { IsChartOf book.now chart.now }
    requires place { place < length book.now.steps }
    requires marks { Encloses book.now place place → IsMarked marks.now place }
    ensures { IfOk result (λ does. IsTrue does ↔ Encloses book.now place place) }
{
    if !marks.has(place) {
        return Ok(false);
    }
    let does = encloses_itself(alloc, book, chart, place)?;
    Ok(does)
}

/// The places of the steps that enclose themselves.
pub(crate) fn enclosing(alloc: Global, book: &Book, chart: &Chart) -> Result<Bits, AllocError>
    requires { IsChartOf book.now chart.now }
    ensures { IfOk result (AreMarksOf (λ place. Encloses book.now place place)) }
{
    let count = book.steps.as_slice().len();
    let may = may_enclose(alloc, book, chart)?;
    let mut marks = Bits::unmarked(alloc, count)?;
    for place in 0..count {
        if is_in_itself(alloc, book, chart, &may, place as u32)? {
            marks.mark(place as u32);
        }
    }
    Ok(marks)
}
