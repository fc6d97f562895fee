// The walk over books, their places and the rules.
ghost use Rattle.std.specs.Prelude.{◌≡◌, ◌↔◌, ◌<◌, ◌≤◌, ◌+◌, IsTrue, IfOk, OnOk, Some, length, slice_get, option_map, option_and_then};
ghost use Rattle.std.specs.Option.{ForSome};
ghost use Rattle.cacao_book_shape.specs.Shape.{place_rank};
ghost use Rattle.cacao_book.specs.Steps.{KeepsLimits};
ghost use Rattle.cacao_check_steps.specs.Parts.{ReadsStep};
ghost use Rattle.cacao_check.specs.Sense.{sense_number, KeepsOfStep, KeepsIn};
ghost use Rattle.cacao_check_regions.specs.Surveys.{IsSurveyOf, AreSurveysOf, AreLeads};
ghost use Rattle.cacao_check_regions.specs.Memories.{Remembers};
ghost use Rattle.cacao_check.specs.Walk.{FindsRule, FindsAt, FindsLeast};

use crate::book_rules::{keeps_k20, keeps_of_book};
use crate::breaks::{Break, Mode};
use crate::rules::{SenseRule, number_of, rule_of};
use crate::sight_rules::{keeps_k22, keeps_k23, keeps_k24};
use crate::step_rules::{keeps_k13, keeps_k16, keeps_k17, keeps_k18, keeps_k19, keeps_k21};
use base_graphs::Bits;
use cacao_book::{Book, Step};
use cacao_check_regions::{Memory, Survey};
use cacao_check_steps::Parts;
use cacao_json::Text;
use std::alloc::{AllocError, Global};

// What was read of a step.
fn parts_at<'a>(
    books: &[Book],
    book: &Book,
    survey: &'a Survey,
    place: u32,
    step: &Step,
) -> &'a Parts
    requires survey { IsSurveyOf books.now book.now survey.now }
    requires here { slice_get book.now.steps place ≡ Some step.now }
    ensures reads { ReadsStep books.now book.now step.now result.now }
    ensures limits { KeepsLimits step.now }
{
    let _ = books;
    let _ = book.steps.as_slice();
    let _ = step;
    &survey.parts[place as usize]
}

// Whether a step keeps a rule.
fn keeps_of_step(
    alloc: Global,
    books: &[Book],
    mode: Mode,
    leads: &[Bits],
    number: u32,
    book: &Book,
    survey: &Survey,
    memory: &mut Memory,
    place: u32,
    step: &Step,
    rule: SenseRule,
) -> Result<bool, AllocError>
    requires leads { AreLeads books.now leads.now }
    requires survey { IsSurveyOf books.now book.now survey.now }
    requires memory { Remembers book.now memory.old }
    requires here { slice_get book.now.steps place ≡ Some step.now }
    requires within { place < length book.now.steps }
    ensures keeps { IfOk result (λ keeps. IsTrue keeps ↔ KeepsOfStep books.now mode number book.now place step.now rule) }
    ensures memory { OnOk result (Remembers book.now memory.new) }
{
    let parts = parts_at(books, book, survey, place, step);
    match rule {
        SenseRule::K13 => Ok(keeps_k13(mode, step, parts)),
        SenseRule::K14 => Ok(true),
        SenseRule::K15 => Ok(true),
        SenseRule::K16 => Ok(keeps_k16(books, book, step, parts)),
        SenseRule::K17 => Ok(keeps_k17(book, step)),
        SenseRule::K18 => Ok(keeps_k18(books, book, mode, step, parts)),
        SenseRule::K19 => Ok(keeps_k19(books, book, number, step, parts, leads)),
        SenseRule::K20 => Ok(keeps_k20(&step.variables)),
        SenseRule::K21 => Ok(keeps_k21(books, book, step, parts)),
        SenseRule::K22 => {
            let k22 = keeps_k22(
                alloc,
                books,
                book,
                &survey.chart,
                memory,
                place,
                step,
                parts,
            )?;
            Ok(k22)
        }
        SenseRule::K23 => {
            let k23 = keeps_k23(alloc, book, &survey.chart, memory, place, step)?;
            Ok(k23)
        }
        SenseRule::K24 => {
            let k24 = keeps_k24(alloc, books, book, survey, memory, place, step, parts)?;
            Ok(k24)
        }
        SenseRule::K25 => Ok(survey.ending.has(place) && !survey.enclosing.has(place)),
    }
}

// Whether a rule is kept at a place of a book.
fn keeps(
    alloc: Global,
    books: &[Book],
    mode: Mode,
    leads: &[Bits],
    number: u32,
    book: &Book,
    survey: &Survey,
    memory: &mut Memory,
    place: Option<u32>,
    rule: SenseRule,
) -> Result<bool, AllocError>
    requires leads { AreLeads books.now leads.now }
    requires here { slice_get books.now number ≡ Some book.now }
    requires number { number < length books.now }
    requires survey { IsSurveyOf books.now book.now survey.now }
    requires memory { Remembers book.now memory.old }
    requires within { ForSome place (λ p. p < length book.now.steps) }
    ensures keeps { IfOk result (λ keeps. IsTrue keeps ↔ KeepsIn books.now mode number place rule) }
    ensures memory { OnOk result (Remembers book.now memory.new) }
{
    match place {
        None => Ok(keeps_of_book(books, number, book, rule)),
        Some(place) => {
            let step = &book.steps.as_slice()[place as usize];
            let keeps = keeps_of_step(
                alloc, books, mode, leads, number, book, survey, memory, place, step, rule,
            )?;
            Ok(keeps)
        }
    }
}

// The first broken rule of a place.
fn first_rule(
    alloc: Global,
    books: &[Book],
    mode: Mode,
    leads: &[Bits],
    number: u32,
    book: &Book,
    survey: &Survey,
    memory: &mut Memory,
    place: Option<u32>,
) -> Result<Option<SenseRule>, AllocError>
    requires leads { AreLeads books.now leads.now }
    requires here { slice_get books.now number ≡ Some book.now }
    requires number { number < length books.now }
    requires survey { IsSurveyOf books.now book.now survey.now }
    requires memory { Remembers book.now memory.old }
    requires within { ForSome place (λ p. p < length book.now.steps) }
    ensures keeps { IfOk result (FindsRule books.now mode number place) }
    ensures memory { OnOk result (Remembers book.now memory.new) }
{
    for which in 13..26 {
        let rule = rule_of(which);
        if !keeps(
            alloc, books, mode, leads, number, book, survey, memory, place, rule,
        )? {
            return Ok(Some(rule));
        }
    }
    Ok(None)
}

// The place with a rank: none for the book itself, which is the first, then the steps.
fn place_at(rank: u32) -> Option<u32>
    ensures rank { place_rank result ≡ rank }
    ensures within { ForSome result (λ place. place < rank) }
{
    if rank == 0 { None } else { Some(rank - 1) }
}

fn key_of(alloc: Global, book: &Book, place: Option<u32>) -> Result<Option<Text>, AllocError>
    requires { ForSome place (λ p. p < length book.now.steps) }
    ensures { IfOk result (λ key. key ≡ option_and_then (λ p. option_map (λ s. s.key) (slice_get book.now.steps p)) place) }
{
    let Some(place) = place else {
        return Ok(None);
    };
    let key = Text::from_str(alloc, book.steps.as_slice()[place as usize].key.text())?;
    Ok(Some(key))
}

// What is told of a broken rule.
fn tell(
    alloc: Global,
    number: u32,
    book: &Book,
    place: Option<u32>,
    rule: SenseRule,
) -> Result<Break, AllocError>
    requires { ForSome place (λ p. p < length book.now.steps) }
    ensures book { IfOk result (λ told. told.book ≡ number) }
    ensures step { IfOk result (λ told. told.step ≡ option_and_then (λ p. option_map (λ s. s.key) (slice_get book.now.steps p)) place) }
    ensures rule { IfOk result (λ told. told.rule ≡ sense_number rule) }
{
    let step = key_of(alloc, book, place)?;
    Ok(Break {
        book: number,
        step,
        rule: number_of(rule),
    })
}

// The least break of a book.
fn break_of_book(
    alloc: Global,
    books: &[Book],
    mode: Mode,
    leads: &[Bits],
    number: u32,
    book: &Book,
    survey: &Survey,
) -> Result<Option<Break>, AllocError>
    requires leads { AreLeads books.now leads.now }
    requires here { slice_get books.now number ≡ Some book.now }
    requires number { number < length books.now }
    requires survey { IsSurveyOf books.now book.now survey.now }
    ensures { IfOk result (FindsAt books.now mode number) }
{
    let count = book.steps.as_slice().len() as u32;
    let mut memory = Memory::new(alloc);
    for rank in 0..count + 1 {
        let place = place_at(rank);
        let found = first_rule(
            alloc,
            books,
            mode,
            leads,
            number,
            book,
            survey,
            &mut memory,
            place,
        )?;
        if let Some(rule) = found {
            let told = tell(alloc, number, book, place, rule)?;
            return Ok(Some(told));
        }
    }
    Ok(None)
}

/// The least break of all books.
pub(crate) fn least_break(
    alloc: Global,
    books: &[Book],
    mode: Mode,
    surveys: &[Survey],
    leads: &[Bits],
) -> Result<Option<Break>, AllocError>
    requires few { length books.now ≤ 16 }
    requires surveys { AreSurveysOf books.now surveys.now }
    requires leads { AreLeads books.now leads.now }
    ensures { IfOk result (FindsLeast books.now mode) }
{
    for (number, book) in books.iter().enumerate() {
        let survey = &surveys[number];
        let found = break_of_book(alloc, books, mode, leads, number as u32, book, survey)?;
        if found.is_some() {
            return Ok(found);
        }
    }
    Ok(None)
}
