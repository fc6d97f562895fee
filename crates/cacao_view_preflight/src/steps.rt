// Warnings of steps that no path reaches.
ghost use Rattle.std.specs.Prelude.{◌≡◌, ◌≤◌, ◌++◌, IfOk, OnOk, false, length, map, not, slice_index_or, string_bytes};
ghost use Rattle.cacao_view_preflight.specs.Warnings.{each, of_reach, of_steps, step_line, warn_if};

use base_graphs::Bits;
use cacao_book::{Book, Step};
use cacao_check_regions::Survey;
use cacao_view_words::Lines;
use std::alloc::{AllocError, Global};

fn step_line(alloc: Global, n: usize, key: &str) -> Result<String, AllocError>
    ensures { IfOk result (λ line. string_bytes line ≡ step_line n key.now) }
{
    format!(in alloc; "warning: book {n} step {key}: no path reaches it\n")
}

/// Warns of a step, if no path reaches it.
fn add_if(
    alloc: Global,
    n: usize,
    is_reached: bool,
    key: &str,
    lines: &mut Lines,
) -> Result<(), AllocError>
    ensures { OnOk result (lines.new ≡ lines.old ++ warn_if (not is_reached) (step_line n key.now)) }
{
    if is_reached {
        return Ok(());
    }
    let line = step_line(alloc, n, key)?;
    lines.push_text(line)?;
    Ok(())
}

/// The same of the step at this place.
fn add_step(
    alloc: Global,
    n: usize,
    reached: &Bits,
    place: usize,
    step: &Step,
    lines: &mut Lines,
) -> Result<(), AllocError>
    requires { place ≤ 4096 }
    ensures { OnOk result (lines.new ≡ lines.old ++ warn_if (not (slice_index_or reached.now place false)) (step_line n step.now.key)) }
{
    let is_reached = reached.has(place as u32);
    add_if(alloc, n, is_reached, step.key.text(), lines)?;
    Ok(())
}

fn add_steps(
    alloc: Global,
    n: usize,
    reached: &Bits,
    steps: &[Step],
    lines: &mut Lines,
) -> Result<(), AllocError>
    requires { length steps.now ≤ 4096 }
    ensures { OnOk result (lines.new ≡ lines.old ++ each (λ place step. warn_if (not (slice_index_or reached.now place false)) (step_line n step.key)) 0 steps.now) }
{
    for place in 0..steps.len() {
        add_step(alloc, n, reached, place, &steps[place], lines)?;
    }
    Ok(())
}

fn add_book(
    alloc: Global,
    n: usize,
    reached: &Bits,
    book: &Book,
    lines: &mut Lines,
) -> Result<(), AllocError>
    ensures { OnOk result (lines.new ≡ lines.old ++ of_steps reached.now n book.now) }
{
    add_steps(alloc, n, reached, book.steps.as_slice(), lines)?;
    Ok(())
}

/// Warns of steps of playbooks that no path reaches, by the surveys of the playbooks.
pub(crate) fn warn_of_steps(
    alloc: Global,
    surveys: &[Survey],
    books: &[Book],
    lines: &mut Lines,
) -> Result<(), AllocError>
    requires { length surveys.now ≡ length books.now }
    ensures { OnOk result (lines.new ≡ lines.old ++ of_reach (map (λ survey. survey.chart.reach) surveys.now) books.now) }
{
    for n in 0..books.len() {
        add_book(alloc, n, &surveys[n].chart.reach, &books[n], lines)?;
    }
    Ok(())
}
