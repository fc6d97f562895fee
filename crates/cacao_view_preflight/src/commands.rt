// Warnings of commands that filters refuse whatever the values are.
ghost use Rattle.std.specs.Prelude.{◌≡◌, ◌++◌, codes, decimal, IfOk, OnOk, string_bytes};
ghost use Rattle.std.specs.List.{flat_map};
ghost use Rattle.cacao_view_preflight.specs.Warnings.{command_line, each, of_book_commands, of_command, of_commands, refusal_lines, refusal_words, sure_words};

use crate::constants::outer_constants;
use crate::members::step_front;
use crate::refusals::sure_of;
use crate::sure::Sure;
use cacao_book::{Book, Step, StepCommand};
use cacao_check_steps::commands_of;
use cacao_vars::Vars;
use cacao_view_words::Lines;
use std::alloc::{AllocError, Global};

/// What is sure of the answer: the status and its text, where they are.
fn sure_words(alloc: Global, sure: Sure) -> Result<String, AllocError>
    ensures { IfOk result (λ words. string_bytes words ≡ sure_words sure) }
{
    match sure {
        Sure::Answer(refusal) => answer_words(alloc, refusal.status, refusal.text.text()),
        Sure::Malformed => String::from_str(alloc, "400"),
        Sure::Refused => String::from_str(alloc, "400 or 501"),
    }
}

fn answer_words(alloc: Global, status: u16, text: &str) -> Result<String, AllocError>
    ensures { IfOk result (λ words. string_bytes words ≡ decimal status ++ (codes " " ++ text.now)) }
{
    format!(in alloc; "{status} {text}")
}

fn refusal_words(alloc: Global, c: usize, words: &str) -> Result<String, AllocError>
    ensures { IfOk result (λ line. string_bytes line ≡ refusal_words c words.now) }
{
    format!(in alloc; " command {c}: filters answer {words} whatever the values\n")
}

fn command_line(
    alloc: Global,
    n: usize,
    key: &str,
    c: usize,
    sure: Sure,
) -> Result<Vec<u8>, AllocError>
    ensures { IfOk result (λ line. line.items ≡ command_line n key.now c sure) }
{
    let answer = sure_words(alloc, sure)?;
    let words = refusal_words(alloc, c, answer.as_str())?;
    let mut line = step_front(alloc, n, key)?;
    line.extend_from_slice(words.as_bytes())?;
    Ok(line)
}

fn add_refusal(
    alloc: Global,
    n: usize,
    key: &str,
    c: usize,
    sure: Option<Sure>,
    lines: &mut Lines,
) -> Result<(), AllocError>
    ensures { OnOk result (lines.new ≡ lines.old ++ refusal_lines n key.now c sure) }
{
    let Some(sure) = sure else {
        return Ok(());
    };
    let line = command_line(alloc, n, key, c, sure)?;
    lines.push(line)?;
    Ok(())
}

fn add_command(
    alloc: Global,
    own: &Vars,
    outer: &Vars,
    n: usize,
    key: &str,
    c: usize,
    command: &StepCommand,
    lines: &mut Lines,
) -> Result<(), AllocError>
    ensures { OnOk result (lines.new ≡ lines.old ++ of_command own.now outer.now n key.now c command.now) }
{
    let sure = sure_of(alloc, own, outer, command)?;
    add_refusal(alloc, n, key, c, sure, lines)?;
    Ok(())
}

fn add_commands(
    alloc: Global,
    own: &Vars,
    outer: &Vars,
    n: usize,
    key: &str,
    commands: &[StepCommand],
    lines: &mut Lines,
) -> Result<(), AllocError>
    ensures { OnOk result (lines.new ≡ lines.old ++ each (of_command own.now outer.now n key.now) 0 commands.now) }
{
    for c in 0..commands.len() {
        add_command(alloc, own, outer, n, key, c, &commands[c], lines)?;
    }
    Ok(())
}

fn add_step(
    alloc: Global,
    outer: &Vars,
    n: usize,
    step: &Step,
    lines: &mut Lines,
) -> Result<(), AllocError>
    ensures { OnOk result (lines.new ≡ lines.old ++ of_commands outer.now n step.now) }
{
    let commands = commands_of(&step.kind);
    add_commands(
        alloc,
        &step.variables,
        outer,
        n,
        step.key.text(),
        commands,
        lines,
    )?;
    Ok(())
}

fn add_steps(
    alloc: Global,
    outer: &Vars,
    n: usize,
    steps: &[Step],
    lines: &mut Lines,
) -> Result<(), AllocError>
    ensures { OnOk result (lines.new ≡ lines.old ++ flat_map (of_commands outer.now n) steps.now) }
{
    for step in steps {
        add_step(alloc, outer, n, step, lines)?;
    }
    Ok(())
}

fn add_book(alloc: Global, n: usize, book: &Book, lines: &mut Lines) -> Result<(), AllocError>
    ensures { OnOk result (lines.new ≡ lines.old ++ of_book_commands n book.now) }
{
    let outer = outer_constants(alloc, book)?;
    add_steps(alloc, &outer, n, book.steps.as_slice(), lines)?;
    Ok(())
}

/// Warns of commands of playbooks that filters refuse whatever the values are.
pub(crate) fn warn_of_commands(
    alloc: Global,
    books: &[Book],
    lines: &mut Lines,
) -> Result<(), AllocError>
    ensures { OnOk result (lines.new ≡ lines.old ++ each of_book_commands 0 books.now) }
{
    for n in 0..books.len() {
        add_book(alloc, n, &books[n], lines)?;
    }
    Ok(())
}
