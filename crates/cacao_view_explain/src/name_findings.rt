// What breaks the rules on the names of a step, and where it stands.
ghost use Rattle.std.specs.Prelude.{◌≡◌, ◌⊎◌, IfOk, Some, slice_get, string_bytes};
ghost use Rattle.cacao_book.specs.Steps.{KeepsLimits};
ghost use Rattle.cacao_check_regions.specs.Surveys.{IsSurveyOf};
ghost use Rattle.cacao_view_explain.specs.Naming.{IsOfNames, NamesMisfit, NamesUndeclared, NamesWrong, rule_words};
ghost use Rattle.cacao_view_explain.specs.declared.name_faults.TheConstants.{NO_NAME, NO_RESULT};

use crate::name_faults::{NO_NAME, NO_RESULT, misfit_result, undeclared_words, unseen_name};
use crate::name_places::{Sought, argument_finding};
use crate::spot::{Finding, Spot};
use cacao_book::{Book, Step};
use cacao_check_regions::Survey;
use std::alloc::{AllocError, Global};

/// A name that the step uses, and of which it may see that there is no declaration, and where it stands.
fn unseen_finding(
    alloc: Global,
    bytes: &[u8],
    books: &[Book],
    book: &Book,
    survey: &Survey,
    place: u32,
    step: &Step,
    object: usize,
) -> Result<Finding, AllocError>
    requires survey { IsSurveyOf books.now book.now survey.now }
    requires here { slice_get book.now.steps place ≡ Some step.now }
    ensures { IfOk result (λ finding. (string_bytes finding.what ≡ NO_NAME.now) ⊎ NamesUndeclared book.now place step.now (string_bytes finding.what)) }
{
    let Some(name) = unseen_name(alloc, books, book, survey, place, step)? else {
        return Finding::of(alloc, Spot::object(object), NO_NAME);
    };
    let says = undeclared_words(book, &name);
    let sought = Sought {
        bytes,
        object,
        step,
        name: &name,
    };
    let (part, at) = sought.place(alloc)?;
    let spot = part.spot(alloc, bytes, object)?;
    Finding::of_name(alloc, spot, at, name.text(), says)
}

/// A name to which the step may not write its result, and where it stands.
fn misfit_finding(
    alloc: Global,
    bytes: &[u8],
    books: &[Book],
    book: &Book,
    survey: &Survey,
    place: u32,
    step: &Step,
    object: usize,
) -> Result<Finding, AllocError>
    requires survey { IsSurveyOf books.now book.now survey.now }
    requires limits { KeepsLimits step.now }
    ensures { IfOk result (λ finding. (string_bytes finding.what ≡ NO_RESULT.now) ⊎ NamesMisfit book.now place step.now (string_bytes finding.what)) }
{
    let _ = books;
    let Some(misfit) = misfit_result(alloc, book, &survey.chart, place, step)? else {
        return Finding::of(alloc, Spot::object(object), NO_RESULT);
    };
    argument_finding(
        alloc,
        bytes,
        object,
        "out_args",
        misfit.number,
        misfit.name.text(),
        misfit.says,
    )
}

/// What breaks this rule on names in the step at a place.
pub(crate) fn name_finding(
    alloc: Global,
    bytes: &[u8],
    books: &[Book],
    book: &Book,
    survey: &Survey,
    place: u32,
    step: &Step,
    object: usize,
    rule: u8,
) -> Result<Finding, AllocError>
    requires survey { IsSurveyOf books.now book.now survey.now }
    requires here { slice_get book.now.steps place ≡ Some step.now }
    requires limits { KeepsLimits step.now }
    requires rule { IsOfNames rule }
    ensures { IfOk result (λ finding. (string_bytes finding.what ≡ rule_words rule) ⊎ NamesWrong rule book.now place step.now (string_bytes finding.what)) }
{
    if rule == 22 {
        return unseen_finding(alloc, bytes, books, book, survey, place, step, object);
    }
    misfit_finding(alloc, bytes, books, book, survey, place, step, object)
}
