// Which name of a step breaks a rule on names, K22 or K23.
ghost use Rattle.std.specs.Prelude.{◌≡◌, ◌↔◌, Contains, IfOk, IfSome, IsTrue, None, OnOk, Some, is_some, slice_get};
ghost use Rattle.std.specs.List.{list_any};
ghost use Rattle.cacao_vars.specs.Declarations.{declared};
ghost use Rattle.cacao_book.specs.Steps.{KeepsLimits};
ghost use Rattle.cacao_check_steps.specs.Parts.{ReadsStep};
ghost use Rattle.cacao_check_steps.specs.Uses.{Uses};
ghost use Rattle.cacao_check_regions.specs.Charts.{IsChartOf};
ghost use Rattle.cacao_check_regions.specs.declared.flaws.Flaw.TheVariants as flaw;
ghost use Rattle.cacao_check_regions.specs.Flaws.{SeesFlaw};
ghost use Rattle.cacao_check_regions.specs.Regions.{Sees};
ghost use Rattle.cacao_check_regions.specs.Surveys.{IsSurveyOf};
ghost use Rattle.cacao_check_regions.specs.Memories.{Remembers};
ghost use Rattle.cacao_view_explain.specs.Naming.{IsMisfit, IsMisfitResult, is_declared, undeclared_words};

use cacao_book::{Book, Step};
use cacao_check_regions::{Chart, Flaw, Memory, Survey, sees_flaw};
use cacao_check_steps::{Parts, is_action, out_args_of, used_names};
use cacao_vars::Name;
use std::alloc::{AllocError, Global};

/// What is said of a name that nothing declares.
pub(crate) const NOWHERE: &str = "is declared nowhere";

/// What is said of a name that is declared where the step may not see it.
pub(crate) const ELSEWHERE: &str =
    "is declared by other steps, and by none that encloses this one on each path";

/// What is said of a break of K22 without a name.
pub(crate) const NO_NAME: &str = "a name that the step uses is not declared wherever it stands";

/// What is said of a constant to which a result is written.
pub(crate) const CONSTANT: &str = "is a constant, and a result is written to it";

/// What is said of a variable of a kind that does not take the result.
pub(crate) const KIND: &str =
    "is of a type that does not take this result: string, integer, long or a type that is not checked take the status and the rule's number, string or a type that is not checked the text";

/// What is said of a break of K23 without a name.
pub(crate) const NO_RESULT: &str =
    "a variable in out_args is a constant, or of another type, where the step also stands";

// ---- K22

/// What was read of the step at a place.
fn parts_at<'a>(
    books: &[Book],
    book: &Book,
    survey: &'a Survey,
    place: u32,
    step: &Step,
) -> Option<&'a Parts>
    requires survey { IsSurveyOf books.now book.now survey.now }
    requires here { slice_get book.now.steps place ≡ Some step.now }
    ensures { IfSome result (λ parts. ReadsStep books.now book.now step.now parts.now) }
{
    let _ = books;
    let _ = book;
    let _ = step;
    survey.parts.as_slice().get(place as usize)
}

/// Whether the step at a place may see something of the name that has this flaw.
pub(crate) fn sees(
    alloc: Global,
    book: &Book,
    chart: &Chart,
    memory: &mut Memory,
    name: &Name,
    flaw: Flaw,
    place: u32,
) -> Result<bool, AllocError>
    requires chart { IsChartOf book.now chart.now }
    requires memory { Remembers book.now memory.old }
    ensures sees { IfOk result (λ sees. IsTrue sees ↔ SeesFlaw book.now name.now flaw place) }
    ensures memory { OnOk result (Remembers book.now memory.new) }
{
    let sees = sees_flaw(alloc, book, chart, memory, name, &flaw, place)?;
    Ok(sees)
}

/// The first of these names of which the step at a place may see that there is no declaration.
fn first_unseen(
    alloc: Global,
    book: &Book,
    chart: &Chart,
    names: &[Name],
    place: u32,
) -> Result<Option<Name>, AllocError>
    requires { IsChartOf book.now chart.now }
    ensures { IfOk result (λ found. IfSome found (λ name. Contains names.now name × SeesFlaw book.now name flaw.Missing place)) }
{
    let mut memory = Memory::new(alloc);
    for name in names {
        let is_missing = sees(alloc, book, chart, &mut memory, name, Flaw::Missing, place)?;
        if is_missing {
            let name = name.clone()?;
            return Ok(Some(name));
        }
    }
    Ok(None)
}

/// A name that the step uses, and of which it may see that there is no declaration.
pub(crate) fn unseen_name(
    alloc: Global,
    books: &[Book],
    book: &Book,
    survey: &Survey,
    place: u32,
    step: &Step,
) -> Result<Option<Name>, AllocError>
    requires survey { IsSurveyOf books.now book.now survey.now }
    requires here { slice_get book.now.steps place ≡ Some step.now }
    ensures { IfOk result (λ found. IfSome found (λ name. Uses step.now name × Sees book.now name place None)) }
{
    let Some(parts) = parts_at(books, book, survey, place, step) else {
        return Ok(None);
    };
    let names = used_names(alloc, books, book, step, parts)?;
    let found = first_unseen(alloc, book, &survey.chart, names.as_slice(), place)?;
    Ok(found)
}

/// Whether a step declares the name.
fn is_declared_by(steps: &[Step], name: &Name) -> bool
    ensures { result ≡ list_any (λ step. is_some (declared step.variables name.now)) steps.now }
{
    steps.iter().any(|step| step.variables.declares(name))
}

/// Whether the playbook declares the name, or one of its steps.
fn is_declared(book: &Book, name: &Name) -> bool
    ensures { result ≡ is_declared book.now name.now }
{
    book.variables.declares(name) || is_declared_by(book.steps.as_slice(), name)
}

/// What is said of a name that the step does not see.
pub(crate) fn undeclared_words(book: &Book, name: &Name) -> &'static str
    ensures { result.now ≡ undeclared_words (is_declared book.now name.now) }
{
    if is_declared(book, name) {
        ELSEWHERE
    } else {
        NOWHERE
    }
}

// ---- K23

/// A result of a step that breaks the rule on results: its number, its name, and what is said of that.
#[derive(Clone, Copy)]
pub(crate) struct Misfit<'a> {
    pub(crate) number: usize,
    pub(crate) name: &'a Name,
    pub(crate) says: &'static str,
}

/// What is wrong with a declaration of the name that the step at a place may see, where its result of this number is written to it.
fn misfit_of(
    alloc: Global,
    book: &Book,
    chart: &Chart,
    memory: &mut Memory,
    place: u32,
    step: &Step,
    number: u32,
    name: &Name,
) -> Result<Option<&'static str>, AllocError>
    requires chart { IsChartOf book.now chart.now }
    requires memory { Remembers book.now memory.old }
    ensures misfit { IfOk result (λ found. IfSome found (λ says. IsMisfit book.now place step.now number name.now says.now)) }
    ensures memory { OnOk result (Remembers book.now memory.new) }
{
    let is_constant = sees(alloc, book, chart, memory, name, Flaw::Constant, place)?;
    if is_constant {
        return Ok(Some(CONSTANT));
    }
    let action = is_action(&step.kind);
    if !action {
        return Ok(None);
    }
    let is_unfit = sees(alloc, book, chart, memory, name, Flaw::Unfit(number), place)?;
    if is_unfit {
        return Ok(Some(KIND));
    }
    Ok(None)
}

/// The first result of the step at a place that is written to a constant, or to a variable of a kind that does not take it.
pub(crate) fn misfit_result<'a>(
    alloc: Global,
    book: &Book,
    chart: &Chart,
    place: u32,
    step: &'a Step,
) -> Result<Option<Misfit<'a>>, AllocError>
    requires chart { IsChartOf book.now chart.now }
    requires limits { KeepsLimits step.now }
    ensures { IfOk result (λ found. IfSome found (λ misfit. IsMisfitResult book.now place step.now misfit.number misfit.name.now misfit.says.now)) }
{
    let mut memory = Memory::new(alloc);
    for (number, name) in out_args_of(&step.kind).iter().enumerate() {
        if let Some(says) = misfit_of(
            alloc,
            book,
            chart,
            &mut memory,
            place,
            step,
            number as u32,
            name,
        )? {
            return Ok(Some(Misfit { number, name, says }));
        }
    }
    Ok(None)
}
