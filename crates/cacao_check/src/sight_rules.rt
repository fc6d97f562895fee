// The rules of a step that look at what it sees of names, one function each.
ghost use Rattle.std.specs.Prelude.{◌≡◌, ◌↔◌, ◌⊎◌, ◌<◌, IsTrue, IsSome, IfOk, OnOk, All, Some, slice_get};
ghost use Rattle.cacao_book.specs.Steps.{KeepsLimits};
ghost use Rattle.cacao_check_steps.specs.Links.{declares};
ghost use Rattle.cacao_check_regions.specs.Regions.{IsPlaced};
ghost use Rattle.cacao_check_regions.specs.Flaws.{SeesFlaw, result_flaw as result_flaw_of};
ghost use Rattle.cacao_check.specs.Rules.{K22, K23, K24, IsDeclaredAlike};
ghost use Rattle.cacao_check_regions.specs.Charts.{IsChartOf};
ghost use Rattle.cacao_check_steps.specs.Parts.{ReadsStep};
ghost use Rattle.cacao_check_regions.specs.Surveys.{IsSurveyOf};
ghost use Rattle.cacao_check_regions.specs.Memories.{Remembers};

use cacao_book::{Book, Step};
use cacao_check_regions::{Chart, Flaw, Memory, Survey, sees_flaw};
use cacao_check_steps::{Parts, in_args_of, is_action, out_args_of, used_names};
use cacao_vars::{Kind, Name, Var};
use std::alloc::{AllocError, Global};

// Whether each of the names is declared wherever the step at a place may stand.
fn none_missing(
    alloc: Global,
    book: &Book,
    chart: &Chart,
    memory: &mut Memory,
    names: &[Name],
    place: u32,
) -> Result<bool, AllocError>
    requires chart { IsChartOf book.now chart.now }
    requires memory { Remembers book.now memory.old }
    ensures keeps { IfOk result (λ none. IsTrue none ↔ All (λ name. ¬ SeesFlaw book.now name Flaw.Missing place) names.now) }
    ensures memory { OnOk result (Remembers book.now memory.new) }
{
    for name in names {
        let sees = sees_flaw(alloc, book, chart, memory, name, &Flaw::Missing, place)?;
        if sees {
            return Ok(false);
        }
    }
    Ok(true)
}

/// Whether each name that a step uses is declared wherever it may stand.
pub(crate) fn keeps_k22(
    alloc: Global,
    books: &[Book],
    book: &Book,
    chart: &Chart,
    memory: &mut Memory,
    place: u32,
    step: &Step,
    parts: &Parts,
) -> Result<bool, AllocError>
    requires chart { IsChartOf book.now chart.now }
    requires memory { Remembers book.now memory.old }
    requires reads { ReadsStep books.now book.now step.now parts.now }
    ensures keeps { IfOk result (λ keeps. IsTrue keeps ↔ K22 book.now place step.now) }
    ensures memory { OnOk result (Remembers book.now memory.new) }
{
    let names = used_names(alloc, books, book, step, parts)?;
    let none = none_missing(alloc, book, chart, memory, &names, place)?;
    Ok(none)
}

// What is asked of a variable to which a result of a step is written.
fn result_flaw(action: bool, at: u32) -> Flaw
    ensures { result ≡ result_flaw_of action at }
{
    if action {
        Flaw::Unfit(at)
    } else {
        Flaw::Constant
    }
}

/// Whether each result of a step may be written to where its name is declared.
pub(crate) fn keeps_k23(
    alloc: Global,
    book: &Book,
    chart: &Chart,
    memory: &mut Memory,
    place: u32,
    step: &Step,
) -> Result<bool, AllocError>
    requires chart { IsChartOf book.now chart.now }
    requires limits { KeepsLimits step.now }
    requires memory { Remembers book.now memory.old }
    ensures keeps { IfOk result (λ keeps. IsTrue keeps ↔ K23 book.now place step.now) }
    ensures memory { OnOk result (Remembers book.now memory.new) }
{
    let action = is_action(&step.kind);
    let outs = out_args_of(&step.kind);
    for (at, name) in outs.iter().enumerate() {
        let flaw = result_flaw(action, at as u32);
        let sees = sees_flaw(alloc, book, chart, memory, name, &flaw, place)?;
        if sees {
            return Ok(false);
        }
    }
    Ok(true)
}

// Whether a variable may be handed in, where it is to be.
fn may_be_handed(var: &Var, as_external: bool) -> bool
    ensures { IsTrue result ↔ (IsTrue as_external → IsTrue var.now.external) }
{
    !as_external || var.external
}

fn copy_of(kind: &Kind) -> Result<Kind, AllocError>
    ensures { IfOk result (λ copy. copy ≡ kind.now) }
{
    kind.clone()
}

// Whether the called book declares a name of a step alike.
fn is_alike(
    alloc: Global,
    book: &Book,
    chart: &Chart,
    memory: &mut Memory,
    place: u32,
    theirs: &Book,
    name: &Name,
    as_external: bool,
) -> Result<bool, AllocError>
    requires chart { IsChartOf book.now chart.now }
    requires memory { Remembers book.now memory.old }
    ensures keeps { IfOk result (λ alike. IsTrue alike ↔ IsDeclaredAlike book.now place theirs.now name.now as_external) }
    ensures memory { OnOk result (Remembers book.now memory.new) }
{
    let Some(var) = theirs.variables.find(name) else {
        return Ok(false);
    };
    if !may_be_handed(var, as_external) {
        return Ok(false);
    }
    let kind = copy_of(&var.kind)?;
    let flaw = Flaw::Unlike(kind);
    let differs = sees_flaw(alloc, book, chart, memory, name, &flaw, place)?;
    Ok(!differs)
}

// Whether the step stands in a region or declares the name itself.
fn is_known(book: &Book, is_placed: bool, place: u32, step: &Step, name: &Name) -> bool
    requires here { slice_get book.now.steps place ≡ Some step.now }
    requires placed { IsTrue is_placed ↔ IsPlaced book.now place }
    ensures { IsTrue result ↔ (IsSome (declares book.now name.now place) ⊎ IsPlaced book.now place) }
{
    let _ = book;
    let _ = place;
    if is_placed {
        return true;
    }
    step.variables.declares(name)
}

// The same, where the step stands in a region or declares the name itself.
fn is_alike_if_known(
    alloc: Global,
    book: &Book,
    chart: &Chart,
    memory: &mut Memory,
    is_placed: bool,
    place: u32,
    step: &Step,
    theirs: &Book,
    name: &Name,
    as_external: bool,
) -> Result<bool, AllocError>
    requires chart { IsChartOf book.now chart.now }
    requires memory { Remembers book.now memory.old }
    requires here { slice_get book.now.steps place ≡ Some step.now }
    requires placed { IsTrue is_placed ↔ IsPlaced book.now place }
    ensures keeps { IfOk result (λ alike. IsTrue alike ↔ (IsSome (declares book.now name.now place) ⊎ IsPlaced book.now place → IsDeclaredAlike book.now place theirs.now name.now as_external)) }
    ensures memory { OnOk result (Remembers book.now memory.new) }
{
    if !is_known(book, is_placed, place, step, name) {
        return Ok(true);
    }
    let alike = is_alike(alloc, book, chart, memory, place, theirs, name, as_external)?;
    Ok(alike)
}

fn are_alike(
    alloc: Global,
    book: &Book,
    chart: &Chart,
    memory: &mut Memory,
    is_placed: bool,
    place: u32,
    step: &Step,
    theirs: &Book,
    names: &[Name],
    as_external: bool,
) -> Result<bool, AllocError>
    requires chart { IsChartOf book.now chart.now }
    requires memory { Remembers book.now memory.old }
    requires here { slice_get book.now.steps place ≡ Some step.now }
    requires placed { IsTrue is_placed ↔ IsPlaced book.now place }
    ensures keeps { IfOk result (λ alike. IsTrue alike ↔ All (λ name. IsSome (declares book.now name place) ⊎ IsPlaced book.now place → IsDeclaredAlike book.now place theirs.now name as_external) names.now) }
    ensures memory { OnOk result (Remembers book.now memory.new) }
{
    for name in names {
        let alike = is_alike_if_known(
            alloc,
            book,
            chart,
            memory,
            is_placed,
            place,
            step,
            theirs,
            name,
            as_external,
        )?;
        if !alike {
            return Ok(false);
        }
    }
    Ok(true)
}

/// Whether the called book declares the arguments and the results of a step alike.
pub(crate) fn keeps_k24(
    alloc: Global,
    books: &[Book],
    book: &Book,
    survey: &Survey,
    memory: &mut Memory,
    place: u32,
    step: &Step,
    parts: &Parts,
) -> Result<bool, AllocError>
    requires survey { IsSurveyOf books.now book.now survey.now }
    requires memory { Remembers book.now memory.old }
    requires here { slice_get book.now.steps place ≡ Some step.now }
    requires reads { ReadsStep books.now book.now step.now parts.now }
    ensures keeps { IfOk result (λ keeps. IsTrue keeps ↔ K24 books.now book.now place step.now) }
    ensures memory { OnOk result (Remembers book.now memory.new) }
{
    let Some(called) = parts.called else {
        return Ok(true);
    };
    let at = called as usize;
    if at >= books.len() {
        return Ok(true);
    }
    let theirs = &books[at];
    let chart = &survey.chart;
    let is_placed = survey.placed.has(place);
    let ins = in_args_of(&step.kind);
    let ins_alike = are_alike(
        alloc, book, chart, memory, is_placed, place, step, theirs, ins, true,
    )?;
    if !ins_alike {
        return Ok(false);
    }
    let outs = out_args_of(&step.kind);
    let outs_alike = are_alike(
        alloc, book, chart, memory, is_placed, place, step, theirs, outs, false,
    )?;
    Ok(outs_alike)
}
