// What commands say, read once: contents for filters, and texts for operators.
ghost use Rattle.std.specs.Prelude.{◌≡◌, ◌<◌, IfOk, Some, length, map, option_map, slice_get};
ghost use Rattle.cacao_json.specs.Tree.{data_of};
ghost use Rattle.cacao_check_steps.specs.Uses.{commands_of, content_tree};
ghost use Rattle.flow_core_rules.specs.Places.{is_manual};
ghost use Rattle.flow_core_texts.specs.Contents.{content_data};
ghost use Rattle.flow_core_texts.specs.Questions.{question_of};
ghost use Rattle.flow_core_texts.specs.Wordings.{step_said, step_words, book_said, book_words, AreWordsOf};

use crate::contents::{Content, read_content};
use crate::phrases::Phrase;
use cacao_book::{Book, Step, StepCommand, StepKind};
use cacao_check::{Checked, Parts};
use cacao_json::Tree;
use std::alloc::{AllocError, Global};

/// What the commands of a step say, in their order.
#[derive(Drop)]
pub struct StepWords {
    pub contents: Vec<Option<Content>>,
    pub questions: Vec<Option<Phrase>>,
}

/// What the commands of a playbook's steps say, in the order of the steps.
pub struct BookWords {
    pub steps: Vec<StepWords>,
}

// (by hand, and not by derive: so a drop is one call in the proofs of all who own one)
impl Drop for BookWords {
    fn drop(self) {
        let Self { steps: _ } = self;
    }
}

/// Whether the command is for an operator.
pub fn is_manual(command: &StepCommand) -> bool
    ensures { result ≡ is_manual command.now }
{
    command.kind.text() == "manual"
}

// The content of a tree, if there is one.
fn read_tree(alloc: Global, tree: &Option<Tree>) -> Result<Option<Content>, AllocError>
    ensures { IfOk result (λ content. option_map content_data content ≡ option_map data_of tree.now) }
{
    match tree {
        Some(tree) => {
            let content = read_content(alloc, tree)?;
            Ok(Some(content))
        }
        None => Ok(None),
    }
}

// The contents of the trees of commands.
fn read_trees(alloc: Global, trees: &[Option<Tree>]) -> Result<Vec<Option<Content>>, AllocError>
    ensures { IfOk result (λ contents. map (option_map content_data) contents.items ≡ map (option_map data_of) trees.now) }
{
    let mut contents = Vec::with_capacity(alloc, trees.len())?;
    for tree in trees {
        let content = read_tree(alloc, tree)?;
        contents.push(content)?;
    }
    Ok(contents)
}

// The text for an operator, if the command has one.
fn read_question(alloc: Global, command: &StepCommand) -> Result<Option<Phrase>, AllocError>
    ensures { IfOk result (λ question. question ≡ question_of command.now) }
{
    if !is_manual(command) {
        return Ok(None);
    }
    match &command.content {
        Some(text) => {
            let phrase = Phrase::read(alloc, text.text())?;
            Ok(Some(phrase))
        }
        None => Ok(None),
    }
}

// The texts of commands for operators.
fn read_questions(
    alloc: Global,
    commands: &[StepCommand],
) -> Result<Vec<Option<Phrase>>, AllocError>
    ensures { IfOk result (λ questions. questions.items ≡ map question_of commands.now) }
{
    let mut questions = Vec::with_capacity(alloc, commands.len())?;
    for command in commands {
        let question = read_question(alloc, command)?;
        questions.push(question)?;
    }
    Ok(questions)
}

// The texts of a step's commands for operators.
fn questions_in(alloc: Global, kind: &StepKind) -> Result<Vec<Option<Phrase>>, AllocError>
    ensures { IfOk result (λ questions. questions.items ≡ map question_of (commands_of kind.now)) }
{
    match kind {
        StepKind::Action { commands, .. } => {
            let questions = read_questions(alloc, commands.as_slice())?;
            Ok(questions)
        }
        _ => Ok(Vec::new(alloc)),
    }
}

// What the commands of a step say, whose contents are these trees.
fn read_step(
    alloc: Global,
    trees: &[Option<Tree>],
    kind: &StepKind,
) -> Result<StepWords, AllocError>
    requires { map (option_map data_of) trees.now ≡ map content_tree (commands_of kind.now) }
    ensures contents { IfOk result (λ words. map (option_map content_data) words.contents.items ≡ map content_tree (commands_of kind.now)) }
    ensures questions { IfOk result (λ words. words.questions.items ≡ map question_of (commands_of kind.now)) }
{
    let contents = read_trees(alloc, trees)?;
    let questions = questions_in(alloc, kind)?;
    Ok(StepWords {
        contents,
        questions,
    })
}

// What was read of a step of the playbook with this number.
fn read_parts(alloc: Global, parts: &Parts, step: &Step) -> Result<StepWords, AllocError>
    requires { map (option_map data_of) parts.now.contents.items ≡ map content_tree (commands_of step.now.kind) }
    ensures { IfOk result (λ words. step_words words ≡ step_said step.now) }
{
    let words = read_step(alloc, parts.contents.as_slice(), &step.kind)?;
    Ok(words)
}

// What the commands of the playbook with this number say.
fn read_book(
    alloc: Global,
    checked: &Checked,
    number: u32,
    book: &Book,
) -> Result<BookWords, AllocError>
    requires within { number < length checked.now.books }
    requires book { slice_get checked.now.books number ≡ Some book.now }
    ensures { IfOk result (λ words. book_words words ≡ book_said book.now) }
{
    let steps = book.steps.as_slice();
    let mut words = Vec::with_capacity(alloc, steps.len())?;
    for place in 0..steps.len() {
        let parts = checked.parts(number, place as u32);
        words.push(read_parts(alloc, parts, &steps[place])?)?;
    }
    Ok(BookWords { steps: words })
}

/// What the commands of playbooks say.
pub fn read_words(alloc: Global, checked: &Checked) -> Result<Vec<BookWords>, AllocError>
    ensures { IfOk result (λ words. AreWordsOf checked.now.books words.items) }
{
    let books = checked.books();
    let mut words = Vec::with_capacity(alloc, books.len())?;
    for number in 0..books.len() {
        words.push(read_book(alloc, checked, number as u32, &books[number])?)?;
    }
    Ok(words)
}
