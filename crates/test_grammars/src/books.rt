// Typed playbooks.
use crate::samples::Samples;
use crate::shapes::edited;
use crate::words::{kind_word, none, unknown, word};
use cacao_book::{Book, Step, StepKind, find_place, read_book};
use cacao_json::Tree;
use cacao_vars::Var;
use std::alloc::{AllocError, Global};
use test_rows::Row;

/// A count.
fn count(alloc: Global, count: usize) -> Result<String, AllocError> {
    format!(in alloc; "{count}")
}

/// A declaration: its name, its kind, and whether it is constant and external.
fn declared(alloc: Global, var: &Var) -> Result<String, AllocError> {
    let name = var.name.text();
    let kind = kind_word(&var.kind);
    let constant = if var.constant { " constant" } else { "" };
    let external = if var.external { " external" } else { "" };
    format!(in alloc; "{name} {kind}{constant}{external}")
}

/// What the book says of itself.
fn of_book(alloc: Global, book: &Book, what: &str) -> Result<String, AllocError> {
    match what {
        "id" => word(alloc, book.id.text()),
        "modified" => word(alloc, book.modified.text()),
        "start" => word(alloc, book.start.text()),
        "exception" => match &book.exception {
            Some(key) => word(alloc, key.text()),
            None => none(alloc),
        },
        "agents" => count(alloc, book.agents.as_slice().len()),
        "variables" => count(alloc, book.variables.as_slice().len()),
        "first variable" => match book.variables.as_slice().first() {
            Some(var) => declared(alloc, var),
            None => none(alloc),
        },
        "steps" => count(alloc, book.steps.as_slice().len()),
        _ => unknown(alloc),
    }
}

/// The place of a step.
fn place(alloc: Global, book: &Book, key: &str) -> Result<String, AllocError> {
    match find_place(book.steps.as_slice(), key) {
        Some(place) => count(alloc, place),
        None => none(alloc),
    }
}

/// The content of the one command of the action, which is the first step.
fn content_of(steps: &[Step]) -> &str {
    let Some(step) = steps.first() else {
        return "(no step)";
    };
    let StepKind::Action { commands, .. } = &step.kind else {
        return "(no action)";
    };
    match commands.as_slice() {
        [command] => match &command.content {
            Some(content) => content.text(),
            None => "(none)",
        },
        _ => "(not one command)",
    }
}

/// What a step does.
fn kind_of(alloc: Global, step: &Step) -> Result<String, AllocError> {
    match &step.kind {
        StepKind::PlaybookAction { in_args, .. } => {
            let names = in_args.as_slice().len();
            format!(in alloc; "playbook action, {names} in")
        }
        StepKind::Parallel { next } => {
            let branches = next.as_slice().len();
            format!(in alloc; "parallel, {branches} branches")
        }
        StepKind::While { on_true, .. } => {
            let key = on_true.text();
            format!(in alloc; "while, on true {key}")
        }
        StepKind::Switch { cases, .. } => {
            let cases = cases.as_slice().len();
            format!(in alloc; "switch, {cases} cases")
        }
        _ => word(alloc, "another kind"),
    }
}

/// What the second of four steps says.
fn of_second(alloc: Global, steps: &[Step], what: &str) -> Result<String, AllocError> {
    let [_, step, _, _] = steps else {
        return word(alloc, "not four steps");
    };
    match what {
        "delay" => count(alloc, step.delay as usize),
        "timeout" => count(alloc, step.timeout as usize),
        _ => kind_of(alloc, step),
    }
}

/// What is asked of a tree's playbook.
fn asked(alloc: Global, tree: &Tree, row: &Row) -> Result<String, AllocError> {
    let Some(book) = read_book(alloc, tree).ok() else {
        return word(alloc, "refused");
    };
    match row.text(0) {
        "book" => of_book(alloc, &book, row.text(1)),
        "place" => place(alloc, &book, row.text(1)),
        "second" => of_second(alloc, book.steps.as_slice(), row.text(1)),
        "content" => word(alloc, content_of(book.steps.as_slice())),
        "kind" => of_second(alloc, book.steps.as_slice(), "kind"),
        _ => unknown(alloc),
    }
}

/// The text that a row changes.
fn old_of(row: &Row) -> &str {
    match row.text(0) {
        "content" => row.text(1),
        "kind" => "{\"type\":\"end\"}",
        _ => "",
    }
}

/// What a row puts in its place.
fn new_of(row: &Row) -> &str {
    match row.text(0) {
        "content" => row.text(2),
        "kind" => row.text(1),
        _ => "",
    }
}

/// What a row is answered.
pub(crate) fn answer(alloc: Global, samples: &Samples, row: &Row) -> Result<String, AllocError> {
    match edited(alloc, samples, old_of(row), new_of(row))? {
        Some(tree) => {
            let said = asked(alloc, &tree, row);
            drop(tree);
            said
        }
        None => word(alloc, "no tree"),
    }
}
