// Warnings of external variables of steps.
ghost use Rattle.std.specs.Prelude.{◌≡◌, ◌++◌, IfOk, OnOk, string_bytes};
ghost use Rattle.std.specs.List.{flat_map};
ghost use Rattle.cacao_view_preflight.specs.Warnings.{each, is_unset, of_inner_variables, of_step_variables, step_front, step_variable_words, warn_if};

use crate::members::step_front;
use crate::variables::is_unset;
use cacao_book::{Book, Step};
use cacao_vars::Var;
use cacao_view_words::Lines;
use std::alloc::{AllocError, Global};

fn step_variable_words(alloc: Global, name: &str) -> Result<String, AllocError>
    ensures { IfOk result (λ words. string_bytes words ≡ step_variable_words name.now) }
{
    format!(in alloc; " variable {name} is external and has no value\n")
}

fn step_variable_line(alloc: Global, n: usize, key: &str, name: &str) -> Result<Vec<u8>, AllocError>
    ensures { IfOk result (λ line. line.items ≡ step_front n key.now ++ step_variable_words name.now) }
{
    let words = step_variable_words(alloc, name)?;
    let mut line = step_front(alloc, n, key)?;
    line.extend_from_slice(words.as_bytes())?;
    Ok(line)
}

fn add_variable(
    alloc: Global,
    n: usize,
    key: &str,
    var: &Var,
    lines: &mut Lines,
) -> Result<(), AllocError>
    ensures { OnOk result (lines.new ≡ lines.old ++ warn_if (is_unset var.now) (step_front n key.now ++ step_variable_words var.now.name)) }
{
    if !is_unset(var) {
        return Ok(());
    }
    let line = step_variable_line(alloc, n, key, var.name.text())?;
    lines.push(line)?;
    Ok(())
}

fn add_variables(
    alloc: Global,
    n: usize,
    key: &str,
    vars: &[Var],
    lines: &mut Lines,
) -> Result<(), AllocError>
    ensures { OnOk result (lines.new ≡ lines.old ++ flat_map (λ var. warn_if (is_unset var) (step_front n key.now ++ step_variable_words var.name)) vars.now) }
{
    for var in vars {
        add_variable(alloc, n, key, var, lines)?;
    }
    Ok(())
}

fn add_step(alloc: Global, n: usize, step: &Step, lines: &mut Lines) -> Result<(), AllocError>
    ensures { OnOk result (lines.new ≡ lines.old ++ of_step_variables n step.now) }
{
    add_variables(alloc, n, step.key.text(), step.variables.as_slice(), lines)?;
    Ok(())
}

fn add_steps(alloc: Global, n: usize, steps: &[Step], lines: &mut Lines) -> Result<(), AllocError>
    ensures { OnOk result (lines.new ≡ lines.old ++ flat_map (of_step_variables n) steps.now) }
{
    for step in steps {
        add_step(alloc, n, step, lines)?;
    }
    Ok(())
}

fn add_book(alloc: Global, n: usize, book: &Book, lines: &mut Lines) -> Result<(), AllocError>
    ensures { OnOk result (lines.new ≡ lines.old ++ of_inner_variables n book.now) }
{
    add_steps(alloc, n, book.steps.as_slice(), lines)?;
    Ok(())
}

/// Warns of external variables of steps without a value.
pub(crate) fn warn_of_inner_variables(
    alloc: Global,
    books: &[Book],
    lines: &mut Lines,
) -> Result<(), AllocError>
    ensures { OnOk result (lines.new ≡ lines.old ++ each of_inner_variables 0 books.now) }
{
    for n in 0..books.len() {
        add_book(alloc, n, &books[n], lines)?;
    }
    Ok(())
}
