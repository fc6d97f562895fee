// Where the first break of playbooks is.
ghost use Rattle.std.specs.Prelude.{◌≡◌, IfOk, option_map, string_bytes};
ghost use Rattle.cacao_json.specs.Tree.{data_of};
ghost use Rattle.cacao_view_explain.specs.Naming.{SaysOfNames};

use crate::at_fault::AtFault;
use crate::books::books_of;
use crate::sense_faults::Suspect;
use crate::shape_faults::shape_fault;
use crate::spot::Finding;
use crate::survey_findings::survey_finding;
use cacao_book::{Book, find_place};
use cacao_check::Break;
use cacao_json::{Tree, member};
use cacao_view_faults::scan::{member_at, skip_space};
use std::alloc::{AllocError, Global};

/// The step with this key; the playbook where there is none.
fn step_of<'a>(tree: &'a Tree, key: &str) -> &'a Tree {
    let Some(workflow) = member(tree, "workflow") else {
        return tree;
    };
    match member(workflow, key) {
        Some(step) => step,
        None => tree,
    }
}

/// The place of the step with this key; that of the playbook where it is not found.
fn place_of_step(alloc: Global, bytes: &[u8], key: &str) -> Result<usize, AllocError> {
    let top = skip_space(bytes, 0);
    let Some(workflow) = member_at(alloc, bytes, top, "workflow")? else {
        return Ok(top);
    };
    let found = member_at(alloc, bytes, workflow, key)?;
    Ok(found.unwrap_or(top))
}

/// The object at fault, the playbook or one of its steps, and where it begins.
fn object_of<'a>(
    alloc: Global,
    bytes: &[u8],
    tree: &'a Tree,
    broken: &Break,
) -> Result<(&'a Tree, usize), AllocError> {
    match &broken.step {
        Some(key) => {
            let key = key.text();
            let at = place_of_step(alloc, bytes, key)?;
            Ok((step_of(tree, key), at))
        }
        None => Ok((tree, skip_space(bytes, 0))),
    }
}

/// What breaks a rule of sense, of these playbooks.
fn sense_fault<'a>(books: &'a [Book], object: &'a Tree, broken: &Break) -> AtFault<'a> {
    let Some(book) = books.get(broken.book as usize) else {
        return AtFault::whole("a rule is broken here");
    };
    let suspect = Suspect { books, book };
    let Some(key) = &broken.step else {
        return suspect.book_fault(broken.rule);
    };
    let steps = book.steps.as_slice();
    match find_place(steps, key.text()) {
        Some(place) => suspect.step_fault(object, &steps[place], broken.rule),
        None => AtFault::whole("a rule is broken here"),
    }
}

/// What breaks a rule on a playbook or a step alone, or on its links, in the object that begins at a place.
fn plain_finding(
    alloc: Global,
    bytes: &[u8],
    trees: &[Tree],
    object: &Tree,
    at: usize,
    broken: &Break,
) -> Result<Finding, AllocError> {
    let rule = broken.rule;
    if rule <= 12 {
        let fault = shape_fault(alloc, object, rule)?;
        return fault.finding(alloc, bytes, at);
    }
    let books = books_of(alloc, trees)?;
    let fault = sense_fault(books.as_slice(), object, broken);
    fault.finding(alloc, bytes, at)
}

/// The key of the step whose rule is broken, if it is one's.
pub(crate) fn key_of(broken: &Break) -> Option<&str>
    ensures { option_map (λ text. text.now) result ≡ broken.now.step }
{
    match &broken.step {
        Some(key) => Some(key.text()),
        None => None,
    }
}

/// What is at fault, and where: the pointer goes from the step that is broken, or else from the playbook.
pub(crate) fn finding_of(
    alloc: Global,
    bytes: &[u8],
    trees: &[Tree],
    tree: &Tree,
    broken: &Break,
) -> Result<Finding, AllocError>
    ensures { IfOk result (λ finding. SaysOfNames (data_of tree.now) broken.now (string_bytes finding.what)) }
{
    let (object, at) = object_of(alloc, bytes, tree, broken)?;
    if broken.rule >= 22 {
        return survey_finding(alloc, bytes, trees, tree, key_of(broken), at, broken.rule);
    }
    plain_finding(alloc, bytes, trees, object, at, broken)
}
