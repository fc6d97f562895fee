// What breaks the rules on what a step sees, and on where its paths lead, K22 to K25, and where it stands.
ghost use Rattle.std.specs.Prelude.{◌≡◌, ◌⊎◌, IfOk, IsTrue, Some, option_map, slice_get, string_bytes};
ghost use Rattle.cacao_json.specs.Tree.{data_of};
ghost use Rattle.cacao_book.specs.declared.books.Book.{Book as ABook};
ghost use Rattle.cacao_book.specs.Books.{book};
ghost use Rattle.cacao_book.specs.Steps.{KeepsLimits};
ghost use Rattle.cacao_check_regions.specs.Surveys.{AreSurveysOf, IsSurveyOf};
ghost use Rattle.cacao_view_explain.specs.Naming.{IsOfNames, NamesWrong, SaysOfName, rule_words};

use crate::books::{books_of, first_book, first_survey, one_book, place_at, step_at};
use crate::call_faults::{call_finding, called_by};
use crate::name_faults::{NO_NAME, NO_RESULT};
use crate::name_findings::name_finding;
use crate::spot::{Finding, Spot};
use cacao_book::{Book, Step};
use cacao_check_regions::{Survey, survey_all};
use cacao_json::Tree;
use std::alloc::{AllocError, Global};

const ENDLESS: &str = "no path that goes on from this step comes to an end";

const ENCLOSED: &str = "the step stands in a branch of itself";

const BROKEN: &str = "a rule is broken here";

/// Whether the rule is on the names of a step.
fn is_of_names(rule: u8) -> bool
    ensures yes { IsTrue result → IsOfNames rule }
    ensures no { IsOfNames rule → IsTrue result }
{
    rule == 22 || rule == 23
}

/// The rule's own words.
fn words_of(rule: u8) -> &'static str
    ensures { IsOfNames rule → result.now ≡ rule_words rule }
{
    match rule {
        22 => NO_NAME,
        23 => NO_RESULT,
        _ => BROKEN,
    }
}

/// The same of the object that begins at a place.
fn rule_finding(alloc: Global, object: usize, rule: u8) -> Result<Finding, AllocError>
    ensures { IsOfNames rule → IfOk result (λ finding. string_bytes finding.what ≡ rule_words rule) }
{
    Finding::of(alloc, Spot::object(object), words_of(rule))
}

/// What is said of a step whose paths do not end, or that encloses itself.
fn path_words(survey: &Survey, place: u32) -> &'static str {
    if survey.ending.has(place) {
        ENCLOSED
    } else {
        ENDLESS
    }
}

/// What breaks a rule that is not on names in the step at a place, which may call one of the other playbooks.
fn other_finding(
    alloc: Global,
    bytes: &[u8],
    trees: &[Tree],
    books: &[Book],
    book: &Book,
    survey: &Survey,
    place: u32,
    step: &Step,
    object: usize,
    rule: u8,
) -> Result<Finding, AllocError>
    requires { IsSurveyOf books.now book.now survey.now }
{
    if rule == 25 {
        return Finding::of(alloc, Spot::object(object), path_words(survey, place));
    }
    let others = books_of(alloc, trees)?;
    let Some(called) = called_by(others.as_slice(), step) else {
        return Finding::of(alloc, Spot::object(object), BROKEN);
    };
    call_finding(
        alloc, bytes, books, book, survey, place, step, called, object,
    )
}

/// What breaks this rule in the step at a place.
fn step_finding(
    alloc: Global,
    bytes: &[u8],
    trees: &[Tree],
    books: &[Book],
    book: &Book,
    survey: &Survey,
    place: u32,
    step: &Step,
    object: usize,
    rule: u8,
) -> Result<Finding, AllocError>
    requires survey { IsSurveyOf books.now book.now survey.now }
    requires here { slice_get book.now.steps place ≡ Some step.now }
    requires limits { KeepsLimits step.now }
    ensures { IsOfNames rule → IfOk result (λ finding. (string_bytes finding.what ≡ rule_words rule) ⊎ NamesWrong rule book.now place step.now (string_bytes finding.what)) }
{
    if is_of_names(rule) {
        return name_finding(alloc, bytes, books, book, survey, place, step, object, rule);
    }
    other_finding(
        alloc, bytes, trees, books, book, survey, place, step, object, rule,
    )
}

/// What breaks this rule in the step with this key.
fn key_finding(
    alloc: Global,
    bytes: &[u8],
    trees: &[Tree],
    books: &[Book],
    book: &Book,
    survey: &Survey,
    key: Option<&str>,
    object: usize,
    rule: u8,
) -> Result<Finding, AllocError>
    requires { IsSurveyOf books.now book.now survey.now }
    ensures { IsOfNames rule → IfOk result (λ finding. SaysOfName book.now (option_map (λ text. text.now) key.entry) rule (string_bytes finding.what)) }
{
    let Some(place) = place_at(book, key) else {
        return rule_finding(alloc, object, rule);
    };
    let Some(step) = step_at(book, place) else {
        return rule_finding(alloc, object, rule);
    };
    step_finding(
        alloc, bytes, trees, books, book, survey, place, step, object, rule,
    )
}

/// What breaks this rule in the step with this key of the first of these playbooks.
fn book_finding(
    alloc: Global,
    bytes: &[u8],
    trees: &[Tree],
    books: &[Book],
    surveys: &[Survey],
    key: Option<&str>,
    object: usize,
    rule: u8,
) -> Result<Finding, AllocError>
    requires { AreSurveysOf books.now surveys.now }
    ensures { (book : ABook) → slice_get books.now 0 ≡ Some book → IsOfNames rule → IfOk result (λ finding. SaysOfName book (option_map (λ text. text.now) key.entry) rule (string_bytes finding.what)) }
{
    let Some(book) = first_book(books) else {
        return rule_finding(alloc, object, rule);
    };
    let Some(survey) = first_survey(books, surveys, book) else {
        return rule_finding(alloc, object, rule);
    };
    key_finding(alloc, bytes, trees, books, book, survey, key, object, rule)
}

/// What breaks this rule in the step with this key of the playbook of a tree, and where it stands; the step begins at a place.
pub(crate) fn survey_finding(
    alloc: Global,
    bytes: &[u8],
    trees: &[Tree],
    tree: &Tree,
    key: Option<&str>,
    object: usize,
    rule: u8,
) -> Result<Finding, AllocError>
    ensures { IsOfNames rule → IfOk result (λ finding. SaysOfName (book (data_of tree.now)) (option_map (λ text. text.now) key.entry) rule (string_bytes finding.what)) }
{
    let books = one_book(alloc, tree)?;
    let surveys = survey_all(alloc, books.as_slice())?;
    book_finding(
        alloc,
        bytes,
        trees,
        books.as_slice(),
        surveys.as_slice(),
        key,
        object,
        rule,
    )
}
