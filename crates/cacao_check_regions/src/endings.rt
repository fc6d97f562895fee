// Where paths end.
ghost use Rattle.std.specs.Prelude.{◌≡◌, ◌↔◌, ◌⊎◌, ℕ, ◌<◌, ◌≤◌, length, All, Contains, IfOk, OnOk, IsTrue, IsSomeAnd, slice_get};
ghost use Rattle.cacao_check_regions.specs.Endings.{is_control, CanEnd, ReachesEnd};
ghost use Rattle.cacao_check_regions.specs.Charts.{IsChartOf, AreMarksOf};

use crate::charts::Chart;
use base_graphs::{Bits, Places, reached};
use cacao_book::{Book, Step, StepKind};
use std::alloc::{AllocError, Global};

/// Whether a step has branches.
pub(crate) fn has_branches(kind: &StepKind) -> bool
    ensures { result ≡ is_control kind.now }
{
    match kind {
        StepKind::Start
        | StepKind::End
        | StepKind::Action { .. }
        | StepKind::PlaybookAction { .. } => false,
        _ => true,
    }
}

/// Whether a path can end at a step.
pub(crate) fn can_end(step: &Step) -> bool
    ensures { IsTrue result ↔ CanEnd step.now }
{
    match step.kind {
        StepKind::End => true,
        _ => has_branches(&step.kind) && step.completion.is_none() && step.success.is_none(),
    }
}

// Adds the place of a step, if a path can end there.
fn add_end(places: &mut Places, place: u32, step: &Step) -> Result<(), AllocError>
    ensures { OnOk result ((p : ℕ) → Contains places.new p ↔ (Contains places.old p ⊎ ((place ≡ p) × CanEnd step.now))) }
{
    if can_end(step) {
        places.push(place)?;
        return Ok(());
    }
    Ok(())
}

// The places of the steps at which a path can end.
fn ends(alloc: Global, steps: &[Step]) -> Result<Places, AllocError>
    requires { length steps.now ≤ 4096 }
    ensures within { IfOk result (λ places. All (λ place. place < length steps.now) places) }
    ensures exact { IfOk result (λ places. (place : ℕ) → Contains places place ↔ IsSomeAnd (slice_get steps.now place) CanEnd) }
{
    let mut places = Places::new(alloc);
    for (place, step) in steps.iter().enumerate() {
        add_end(&mut places, place as u32, step)?;
    }
    Ok(places)
}

/// The places from which a step is reached at which a path can end.
pub(crate) fn ending(alloc: Global, book: &Book, chart: &Chart) -> Result<Bits, AllocError>
    requires { IsChartOf book.now chart.now }
    ensures { IfOk result (AreMarksOf (ReachesEnd book.now)) }
{
    let steps = book.steps.as_slice();
    let first = ends(alloc, steps)?;
    let marks = reached(alloc, steps.len(), &chart.back_next, first.as_slice())?;
    Ok(marks)
}
