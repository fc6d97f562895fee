// What breaks the rule on the arguments and the results of a call, K24.
ghost use Rattle.std.specs.Prelude.{OnOk};
ghost use Rattle.cacao_check_regions.specs.Charts.{IsChartOf};
ghost use Rattle.cacao_check_regions.specs.Memories.{Remembers};
ghost use Rattle.cacao_check_regions.specs.Surveys.{IsSurveyOf};

use crate::name_faults::{Misfit, sees};
use crate::name_places::argument_finding;
use crate::spot::{Finding, Spot};
use cacao_book::{Book, Step};
use cacao_check_regions::{Chart, Flaw, Memory, Survey};
use cacao_check_steps::{call_of, in_args_of, out_args_of};
use cacao_vars::Name;
use std::alloc::{AllocError, Global};

/// What is said of a call whose arguments are all declared.
const UNLIKE: &str =
    "an argument is of another type in the called playbook, where the step also stands";

/// The playbook that a step calls, if it is given.
pub(crate) fn called_by<'a>(books: &'a [Book], step: &Step) -> Option<&'a Book> {
    let id = call_of(&step.kind)?;
    for book in books {
        if book.id.text() == id.text() {
            return Some(book);
        }
    }
    None
}

/// Why the called playbook does not declare a name as the step at a place sees it; nothing where it does.
fn argument_misfit(
    alloc: Global,
    book: &Book,
    chart: &Chart,
    memory: &mut Memory,
    place: u32,
    called: &Book,
    name: &Name,
    as_external: bool,
) -> Result<Option<&'static str>, AllocError>
    requires chart { IsChartOf book.now chart.now }
    requires memory { Remembers book.now memory.old }
    ensures { OnOk result (Remembers book.now memory.new) }
{
    let Some(var) = called.variables.find(name) else {
        return Ok(Some("is not declared by the called playbook"));
    };
    if as_external && !var.external {
        return Ok(Some("is not external in the called playbook"));
    }
    let kind = var.kind.clone()?;
    let is_unlike = sees(alloc, book, chart, memory, name, Flaw::Unlike(kind), place)?;
    if is_unlike {
        return Ok(Some("is of another type in the called playbook than here"));
    }
    Ok(None)
}

/// The first of these names that the called playbook does not declare as the step at a place sees it. A step that stands in no region sees
/// its own declarations alone.
fn first_misfit<'a>(
    alloc: Global,
    book: &Book,
    survey: &Survey,
    place: u32,
    step: &Step,
    called: &Book,
    names: &'a [Name],
    as_external: bool,
) -> Result<Option<Misfit<'a>>, AllocError>
    requires { IsChartOf book.now survey.now.chart }
{
    let mut memory = Memory::new(alloc);
    let is_placed = survey.placed.has(place);
    for (number, name) in names.iter().enumerate() {
        if !is_placed && !step.variables.declares(name) {
            continue;
        }
        if let Some(says) = argument_misfit(
            alloc,
            book,
            &survey.chart,
            &mut memory,
            place,
            called,
            name,
            as_external,
        )? {
            return Ok(Some(Misfit { number, name, says }));
        }
    }
    Ok(None)
}

/// An argument or a result of the step at a place that the called playbook does not declare alike, and where it stands.
pub(crate) fn call_finding(
    alloc: Global,
    bytes: &[u8],
    books: &[Book],
    book: &Book,
    survey: &Survey,
    place: u32,
    step: &Step,
    called: &Book,
    object: usize,
) -> Result<Finding, AllocError>
    requires { IsSurveyOf books.now book.now survey.now }
{
    let _ = books;
    let ins = in_args_of(&step.kind);
    if let Some(misfit) = first_misfit(alloc, book, survey, place, step, called, ins, true)? {
        return argument_finding(
            alloc,
            bytes,
            object,
            "in_args",
            misfit.number,
            misfit.name.text(),
            misfit.says,
        );
    }
    let outs = out_args_of(&step.kind);
    if let Some(misfit) = first_misfit(alloc, book, survey, place, step, called, outs, false)? {
        return argument_finding(
            alloc,
            bytes,
            object,
            "out_args",
            misfit.number,
            misfit.name.text(),
            misfit.says,
        );
    }
    Finding::of(alloc, Spot::object(object), UNLIKE)
}
