// Warnings of external variables without a value.
ghost use Rattle.std.specs.Prelude.{◌≡◌, ◌++◌, ◌&&◌, List, not, IfOk, OnOk, string_bytes};
ghost use Rattle.std.specs.List.{flat_map};
ghost use Rattle.cacao_view_preflight.specs.NameSets.{HasJust, holds};
ghost use Rattle.cacao_view_preflight.specs.Warnings.{Text as AText, called_line, each, handed, handed_in, is_unset, of_book_variables, of_called, of_variables, variable_line, warn_if};

use crate::name_set::NameSet;
use cacao_book::{Book, Step, StepKind};
use cacao_vars::{Name, Var};
use cacao_view_words::Lines;
use std::alloc::{AllocError, Global};

/// Whether the variable is external and its declaration gives no value.
pub(crate) fn is_unset(var: &Var) -> bool
    ensures { result ≡ is_unset var.now }
{
    var.external && var.worth.is_none()
}

/// The same, where it is not among those that are given one either.
fn lacks_value(given: &NameSet, var: &Var) -> bool
    ensures { result ≡ (is_unset var.now && not (holds given.now var.now.name)) }
{
    is_unset(var) && !given.has(var.name.text())
}

// ---- variables of the first playbook

fn variable_line(alloc: Global, name: &str) -> Result<String, AllocError>
    ensures { IfOk result (λ line. string_bytes line ≡ variable_line name.now) }
{
    format!(in alloc; "warning: variable {name} is external and has no value\n")
}

fn add_variable(
    alloc: Global,
    bound: &NameSet,
    var: &Var,
    lines: &mut Lines,
) -> Result<(), AllocError>
    ensures { OnOk result (lines.new ≡ lines.old ++ warn_if (is_unset var.now && not (holds bound.now var.now.name)) (variable_line var.now.name)) }
{
    if !lacks_value(bound, var) {
        return Ok(());
    }
    let line = variable_line(alloc, var.name.text())?;
    lines.push_text(line)?;
    Ok(())
}

fn add_variables(
    alloc: Global,
    bound: &NameSet,
    vars: &[Var],
    lines: &mut Lines,
) -> Result<(), AllocError>
    ensures { OnOk result ((all : List AText) → HasJust bound.now all → lines.new ≡ lines.old ++ of_variables all vars.now) }
{
    for var in vars {
        add_variable(alloc, bound, var, lines)?;
    }
    Ok(())
}

// ---- variables of playbooks that are called

fn called_line(alloc: Global, n: usize, name: &str) -> Result<String, AllocError>
    ensures { IfOk result (λ line. string_bytes line ≡ called_line n name.now) }
{
    format!(in alloc;
        "warning: book {n} variable {name} is external and has no value: no call names it in in_args\n"
    )
}

fn add_called(
    alloc: Global,
    given: &NameSet,
    n: usize,
    var: &Var,
    lines: &mut Lines,
) -> Result<(), AllocError>
    ensures { OnOk result (lines.new ≡ lines.old ++ warn_if (is_unset var.now && not (holds given.now var.now.name)) (called_line n var.now.name)) }
{
    if !lacks_value(given, var) {
        return Ok(());
    }
    let line = called_line(alloc, n, var.name.text())?;
    lines.push_text(line)?;
    Ok(())
}

fn add_all_called(
    alloc: Global,
    given: &NameSet,
    n: usize,
    vars: &[Var],
    lines: &mut Lines,
) -> Result<(), AllocError>
    ensures { OnOk result ((all : List AText) → HasJust given.now all → lines.new ≡ lines.old ++ of_called all n vars.now) }
{
    for var in vars {
        add_called(alloc, given, n, var, lines)?;
    }
    Ok(())
}

/// The names that a step hands over to the playbook with this identifier.
fn handed<'b>(id: &str, kind: &'b StepKind) -> &'b [Name]
    ensures { result.now ≡ handed id.now kind.entry.now }
{
    match kind {
        StepKind::PlaybookAction {
            playbook,
            in_args,
            ..
        } => {
            if playbook.text() == id {
                in_args.as_slice()
            } else {
                &[]
            }
        }
        _ => &[],
    }
}

/// Adds the names that a step hands over.
fn add_handed(
    alloc: Global,
    id: &str,
    kind: &StepKind,
    names: &mut NameSet,
) -> Result<(), AllocError>
    ensures { OnOk result ((all : List AText) → HasJust names.old all → HasJust names.new (all ++ handed id.now kind.now)) }
{
    names.add_all(alloc, handed(id, kind))?;
    Ok(())
}

/// Adds those that these steps hand over.
fn add_handed_by(
    alloc: Global,
    id: &str,
    steps: &[Step],
    names: &mut NameSet,
) -> Result<(), AllocError>
    ensures { OnOk result ((all : List AText) → HasJust names.old all → HasJust names.new (all ++ flat_map (λ step. handed id.now step.kind) steps.now)) }
{
    for step in steps {
        add_handed(alloc, id, &step.kind, names)?;
    }
    Ok(())
}

fn add_handed_in(
    alloc: Global,
    id: &str,
    book: &Book,
    names: &mut NameSet,
) -> Result<(), AllocError>
    ensures { OnOk result ((all : List AText) → HasJust names.old all → HasJust names.new (all ++ handed_in id.now book.now)) }
{
    add_handed_by(alloc, id, book.steps.as_slice(), names)?;
    Ok(())
}

/// The names that these playbooks hand over to the one with this identifier.
fn handed_to(alloc: Global, id: &str, books: &[Book]) -> Result<NameSet, AllocError>
    ensures { IfOk result (λ set. HasJust set (flat_map (handed_in id.now) books.now)) }
{
    let mut names = NameSet::new(alloc);
    for book in books {
        add_handed_in(alloc, id, book, &mut names)?;
    }
    Ok(names)
}

/// Warns of the variables of a playbook that is called.
fn add_called_book(
    alloc: Global,
    books: &[Book],
    n: usize,
    book: &Book,
    lines: &mut Lines,
) -> Result<(), AllocError>
    ensures { OnOk result (lines.new ≡ lines.old ++ of_called (flat_map (handed_in book.now.id) books.now) n book.now.variables) }
{
    let given = handed_to(alloc, book.id.text(), books)?;
    add_all_called(alloc, &given, n, book.variables.as_slice(), lines)?;
    Ok(())
}

// ---- both

fn add_book(
    alloc: Global,
    bound: &NameSet,
    books: &[Book],
    n: usize,
    book: &Book,
    lines: &mut Lines,
) -> Result<(), AllocError>
    ensures { OnOk result ((all : List AText) → HasJust bound.now all → lines.new ≡ lines.old ++ of_book_variables all books.now n book.now) }
{
    if n == 0 {
        add_variables(alloc, bound, book.variables.as_slice(), lines)?;
        return Ok(());
    }
    add_called_book(alloc, books, n, book, lines)?;
    Ok(())
}

/// Warns of external variables of playbooks that nothing gives a value, neither the bindings nor a call.
pub(crate) fn warn_of_variables(
    alloc: Global,
    bound: &NameSet,
    books: &[Book],
    lines: &mut Lines,
) -> Result<(), AllocError>
    ensures { OnOk result ((all : List AText) → HasJust bound.now all → lines.new ≡ lines.old ++ each (of_book_variables all books.now) 0 books.now) }
{
    for n in 0..books.len() {
        add_book(alloc, bound, books, n, &books[n], lines)?;
    }
    Ok(())
}
