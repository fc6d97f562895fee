// Reading the texts and the links of a step.
ghost use Rattle.std.specs.Prelude.{◌≡◌, ℕ, ◌≤◌, ◌<◌, length, map, IfOk, IfSome, IfNone, IsSomeAnd, List, option_map, option_and_then};
ghost use Rattle.cacao_json.specs.Tree.{data_of};
ghost use Rattle.cacao_cond.specs.Trees.{AnyTree, tree_of};
ghost use Rattle.cacao_cond.specs.Grammar.{Spells};
ghost use Rattle.cacao_vars.specs.Names.{IsName};
ghost use Rattle.cacao_vars.specs.References.{reference_text};
ghost use Rattle.cacao_book.specs.Steps.{IsInKeyOrder, KindKeepsLimits, KeepsLimits, place_of};
ghost use Rattle.cacao_check_steps.specs.Uses.{condition_of, subject_of, content_tree};
ghost use Rattle.cacao_check_steps.specs.Calls.{book_with as book_with_id, called};
ghost use Rattle.cacao_check_steps.specs.Parts.{ReadsStep, ReadsSteps};

use crate::links::head_row;
use crate::parts::Parts;
use crate::step_parts::{call_of, commands_of, condition_of, is_manual, subject_of};
use cacao_book::{Book, Step, StepCommand, StepKind, find_place};
use cacao_cond::{Cond, CondError, read_cond};
use cacao_json::{Text, Tree, find_tree_with};
use cacao_vars::{Name, whole_reference};
use json::Scratch;
use std::alloc::{AllocError, Global};

// The condition of a step; None where it has none, or a text that is none.
fn read_condition(alloc: Global, kind: &StepKind) -> Result<Option<Cond>, AllocError>
    requires { KindKeepsLimits kind.now }
    ensures found { IfOk result (λ o. IfSome o (λ cond. IsSomeAnd (condition_of kind.now) (Spells (tree_of cond)))) }
    ensures none { IfOk result (λ o. IfNone o (IfSome (condition_of kind.now) (λ text. (cond : AnyTree) → ¬ Spells cond text))) }
{
    let Some(text) = condition_of(kind) else {
        return Ok(None);
    };
    match read_cond(alloc, text.text().as_bytes()) {
        Ok(cond) => Ok(Some(cond)),
        Err(CondError::Grammar) => Ok(None),
        Err(CondError::Memory) => Err(AllocError),
    }
}

// The name of a switch's reference; None where the step is no switch, or its text is not one reference.
fn read_subject(alloc: Global, kind: &StepKind) -> Result<Option<Name>, AllocError>
    ensures found { IfOk result (λ o. IfSome o (λ name. IsName name × (subject_of kind.now ≡ Some (reference_text name)))) }
    ensures none { IfOk result (λ o. IfNone o (IfSome (subject_of kind.now) (λ text. (name : List ℕ) → IsName name → ¬ text ≡ reference_text name))) }
{
    let Some(text) = subject_of(kind) else {
        return Ok(None);
    };
    let Some(name) = whole_reference(text.text()) else {
        return Ok(None);
    };
    let name = Name::new(alloc, name)?;
    Ok(Some(name))
}

// The tree of a command's content.
fn read_content(
    alloc: Global,
    scratch: &mut Scratch,
    command: &StepCommand,
) -> Result<Option<Tree>, AllocError>
    ensures { IfOk result (λ o. option_map data_of o ≡ content_tree command.now) }
{
    if is_manual(command) {
        return Ok(None);
    }
    match &command.content {
        None => Ok(None),
        Some(text) => {
            let found = find_tree_with(alloc, text.text().as_bytes(), scratch)?;
            Ok(found)
        }
    }
}

fn read_contents(
    alloc: Global,
    scratch: &mut Scratch,
    commands: &[StepCommand],
) -> Result<Vec<Option<Tree>>, AllocError>
    ensures { IfOk result (λ trees. map (option_map data_of) trees.items ≡ map content_tree commands.now) }
{
    let mut trees = Vec::new(alloc);
    for command in commands {
        trees.push(read_content(alloc, scratch, command)?)?;
    }
    Ok(trees)
}

// The place to which a link leads.
fn link_place(steps: &[Step], link: &Option<Text>) -> Option<u32>
    requires few { length steps.now ≤ 4096 }
    requires order { IsInKeyOrder steps.now }
    ensures { result ≡ option_and_then (place_of steps.now) link.now }
{
    let Some(key) = link else {
        return None;
    };
    match find_place(steps, key.text()) {
        Some(place) => Some(place as u32),
        None => None,
    }
}

// The first book with an identifier.
fn position_of(books: &[Book], id: &str) -> Option<usize>
    ensures number { result ≡ book_with_id books.now id.now }
    ensures within { IfSome result (λ number. number < length books.now) }
{
    books.iter().position(|book| book.id.text() == id)
}

fn book_with(books: &[Book], id: &str) -> Option<u32>
    requires { length books.now ≤ 16 }
    ensures { result ≡ book_with_id books.now id.now }
{
    match position_of(books, id) {
        Some(number) => Some(number as u32),
        None => None,
    }
}

// The book that a step calls.
fn called_book(books: &[Book], step: &Step) -> Option<u32>
    requires { length books.now ≤ 16 }
    ensures { result ≡ called books.now step.now }
{
    match call_of(&step.kind) {
        Some(id) => book_with(books, id.text()),
        None => None,
    }
}

// What is read of a step.
fn read_step(
    alloc: Global,
    scratch: &mut Scratch,
    books: &[Book],
    book: &Book,
    step: &Step,
) -> Result<Parts, AllocError>
    requires few { length books.now ≤ 16 }
    requires limits { KeepsLimits step.now }
    ensures { IfOk result (ReadsStep books.now book.now step.now) }
{
    let steps = book.steps.as_slice();
    let heads = head_row(alloc, steps, &step.kind)?;
    let subject = read_subject(alloc, &step.kind)?;
    let contents = read_contents(alloc, scratch, commands_of(&step.kind))?;
    // (last, and so dropped at no exit: its drop is the longest to prove)
    let condition = read_condition(alloc, &step.kind)?;
    Ok(Parts {
        condition,
        subject,
        contents,
        completion: link_place(steps, &step.completion),
        success: link_place(steps, &step.success),
        failure: link_place(steps, &step.failure),
        heads,
        called: called_book(books, step),
    })
}

/// What is read of each step of a book.
pub fn read_steps(alloc: Global, books: &[Book], book: &Book) -> Result<Vec<Parts>, AllocError>
    requires { length books.now ≤ 16 }
    ensures { IfOk result (λ all. ReadsSteps books.now book.now all.items) }
{
    let mut scratch = Scratch::new(alloc);
    let mut all = Vec::new(alloc);
    for step in book.steps.as_slice() {
        let parts = read_step(alloc, &mut scratch, books, book, step)?;
        all.push(parts)?;
    }
    Ok(all)
}
