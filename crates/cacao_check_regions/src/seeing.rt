// What a step sees of a name.
ghost use Rattle.std.specs.Prelude.{◌≡◌, ◌↔◌, ◌⊎◌, ◌<◌, length, Contains, IsTrue, IfOk, OnOk};
ghost use Rattle.std.specs.Option.{option_copied};
ghost use Rattle.cacao_check_regions.specs.declared.seen.Sight.{Sight as ASight};
ghost use Rattle.cacao_check_regions.specs.Charts.{IsChartOf, AreMarksOf};
ghost use Rattle.cacao_check_regions.specs.Seeing.{sight_of, HasSeen, IsOnce, HasMarked, IsSeenAt, IsSeenAtControl, IsSeenFrom, IsAround};

use crate::charts::Chart;
use crate::same_vars::same_var;
use crate::seen::Sight;
use crate::sights::declaring;
use base_graphs::{Bits, reached_past_guards};
use cacao_book::{Book, Step};
use cacao_vars::{Name, Var};
use std::alloc::{AllocError, Global};

// Whether an item is this declaration, or says that there may be none.
fn is_sight(item: &Sight, found: Option<&Var>) -> bool
    ensures { IsTrue result ↔ (item.now ≡ sight_of (option_copied found.entry)) }
{
    match (item, found) {
        (Sight::Declared(one), Some(other)) => same_var(one, other),
        (Sight::Missing, None) => true,
        _ => false,
    }
}

// Whether the list has it.
fn has_sight(items: &[Sight], found: Option<&Var>) -> bool
    ensures { IsTrue result ↔ Contains items.now (sight_of (option_copied found.entry)) }
{
    for item in items {
        if is_sight(item, found) {
            return true;
        }
    }
    false
}

fn make_sight(found: Option<&Var>) -> Result<Sight, AllocError>
    ensures { IfOk result (λ sight. sight ≡ sight_of (option_copied found.entry)) }
{
    match found {
        Some(var) => Ok(Sight::Declared(var.clone()?)),
        None => Ok(Sight::Missing),
    }
}

// Adds it, unless the list has it.
fn add_sight(items: &mut Vec<Sight>, found: Option<&Var>) -> Result<(), AllocError>
    ensures items { OnOk result ((sight : ASight) → Contains items.new.items sight ↔ (Contains items.old.items sight ⊎ (sight ≡ sight_of (option_copied found.entry)))) }
    ensures once { OnOk result (IsOnce items.old.items → IsOnce items.new.items) }
{
    if has_sight(items, found) {
        return Ok(());
    }
    items.push(make_sight(found)?)?;
    Ok(())
}

// Whether one of the places is marked.
fn has_marked(places: &[u32], marks: &Bits) -> bool
    ensures { IsTrue result ↔ HasMarked places.now marks.now }
{
    for place in places {
        if marks.has(*place) {
            return true;
        }
    }
    false
}

// Adds what a step declares of the name, if one of its heads is marked.
fn add_control(
    items: &mut Vec<Sight>,
    step: &Step,
    heads: &[u32],
    marks: &Bits,
    name: &Name,
) -> Result<(), AllocError>
    ensures items { OnOk result ((sight : ASight) → Contains items.new.items sight ↔ (Contains items.old.items sight ⊎ IsSeenAt step.now name.now heads.now marks.now sight)) }
    ensures once { OnOk result (IsOnce items.old.items → IsOnce items.new.items) }
{
    let Some(var) = step.variables.find(name) else {
        return Ok(());
    };
    if !has_marked(heads, marks) {
        return Ok(());
    }
    add_sight(items, Some(var))?;
    Ok(())
}

// What the control steps declare of the name of which a head is marked.
fn seen_at_controls(
    alloc: Global,
    book: &Book,
    chart: &Chart,
    marks: &Bits,
    name: &Name,
) -> Result<Vec<Sight>, AllocError>
    requires { IsChartOf book.now chart.now }
    ensures items { IfOk result (λ items. (sight : ASight) → Contains items.items sight ↔ IsSeenAtControl book.now name.now marks.now sight) }
    ensures once { IfOk result (λ items. IsOnce items.items) }
{
    let mut items = Vec::new(alloc);
    for (control, step) in book.steps.as_slice().iter().enumerate() {
        let heads = chart.heads[control].as_slice();
        add_control(&mut items, step, heads, marks, name)?;
    }
    Ok(items)
}

// What is seen from where these places are marked.
fn seen_from(
    alloc: Global,
    book: &Book,
    chart: &Chart,
    marks: &Bits,
    name: &Name,
) -> Result<Vec<Sight>, AllocError>
    requires { IsChartOf book.now chart.now }
    ensures items { IfOk result (λ items. (sight : ASight) → Contains items.items sight ↔ IsSeenFrom book.now name.now marks.now sight) }
    ensures once { IfOk result (λ items. IsOnce items.items) }
{
    let mut items = seen_at_controls(alloc, book, chart, marks, name)?;
    if !has_marked(chart.starts.as_slice(), marks) {
        return Ok(items);
    }
    add_sight(&mut items, book.variables.find(name))?;
    Ok(items)
}

// The places from which something flows to this one.
fn places_around(
    alloc: Global,
    book: &Book,
    chart: &Chart,
    place: u32,
    name: &Name,
) -> Result<Bits, AllocError>
    requires chart { IsChartOf book.now chart.now }
    requires place { place < length book.now.steps }
    ensures { IfOk result (AreMarksOf (IsAround book.now name.now place)) }
{
    let steps = book.steps.as_slice();
    let none = Bits::new(alloc);
    let hiding = declaring(alloc, book, chart, name)?;
    let marks = reached_past_guards(
        alloc,
        steps.len(),
        &chart.back_next,
        &chart.back_heads,
        &none,
        &hiding,
        &[place],
    )?;
    Ok(marks)
}

fn only(alloc: Global, var: &Var) -> Result<Vec<Sight>, AllocError>
    ensures items { IfOk result (λ items. (sight : ASight) → Contains items.items sight ↔ (sight ≡ Sight.Declared var.now)) }
    ensures once { IfOk result (λ items. IsOnce items.items) }
{
    let mut items = Vec::new(alloc);
    items.push(Sight::Declared(var.clone()?))?;
    Ok(items)
}

/// What the step at a place sees of a name: its possible nearest declarations, and whether there may be none, each once.
pub(crate) fn seen_at(
    alloc: Global,
    book: &Book,
    chart: &Chart,
    place: u32,
    name: &Name,
) -> Result<Vec<Sight>, AllocError>
    requires chart { IsChartOf book.now chart.now }
    requires place { place < length book.now.steps }
    ensures seen { IfOk result (λ items. HasSeen book.now name.now place items.items) }
    ensures once { IfOk result (λ items. IsOnce items.items) }
{
    let steps = book.steps.as_slice();
    if let Some(var) = steps[place as usize].variables.find(name) {
        let items = only(alloc, var)?;
        return Ok(items);
    }
    let marks = places_around(alloc, book, chart, place, name)?;
    let items = seen_from(alloc, book, chart, &marks, name)?;
    Ok(items)
}
