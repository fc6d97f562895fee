// What `run` would refuse, and what it would take that is likely to be a mistake.
ghost use Rattle.std.specs.Prelude.{◌≡◌, ◌⊎◌, ◌≤◌, ◌<◌, ◌+◌, ◌∷◌, ◌++◌, [], IfOk, OnOk, IsSome, None, false, true, length, map, option_map, option_to_list, unwrap_or, string_bytes, if◌then◌else◌};
ghost use Rattle.serde_json.specs.Data.{object, no_members};
ghost use Rattle.cacao_json.specs.Tree.{data_of};
ghost use Rattle.cacao_cli_ends.specs.Ends.{no_memory};
ghost use Rattle.cacao_cli_ends.specs.Told.{end_of};
ghost use Rattle.cacao_cli_ends.specs.Work.{bytes_of};
ghost use Rattle.cacao_cli_looks.specs.Command.{text_of};
ghost use Rattle.cacao_view_preflight.specs.Preflights.{Judges, Preflights, Warns, ready_line};
ghost use Rattle.cacao_view_preflight.specs.Warnings.{AreWarnings};

use crate::warning_lines::warnings;
use cacao_cli_ends::End;
use cacao_cli_looks::{FileText, trees_of};
use cacao_json::{Pairs, Tree};
use cacao_site::Bytes;
use cacao_view_words::{Lines, Report};
use flow_core_setup::{Setup, SetupError, setup_law};
use std::alloc::{AllocError, Global};

/// The last item, taken out, if it is wanted.
fn last_if<T: Drop>(items: &mut Vec<T>, wanted: bool) -> Option<T>
    ensures items { items.old.items ≡ items.new.items ++ option_to_list result }
    ensures none { wanted ≡ false → result ≡ None }
    ensures some { wanted ≡ true → 0 < length items.old.items → IsSome result }
{
    if wanted { items.pop() } else { None }
}

/// The bytes of these texts, in order.
fn bytes_of(alloc: Global, texts: Vec<FileText<'_>>) -> Result<Vec<Bytes>, AllocError>
    ensures { IfOk result (λ list. list.items ≡ map (λ text. text.bytes) texts.entry.items) }
{
    texts.into_iter().map(|text| text.bytes).collect(alloc)
}

/// The bytes of a text, if there is one, and none else.
fn bytes_or_none(alloc: Global, text: Option<FileText<'_>>) -> Result<Bytes, AllocError>
    ensures { IfOk result (λ bytes. bytes ≡ bytes_of (option_map text_of text.entry)) }
{
    match text {
        Some(text) => Ok(text.bytes),
        None => Bytes::from_slice(alloc, b""),
    }
}

/// The tree, if there is one, and else an object without members.
fn tree_or_none(alloc: Global, tree: Option<Tree>) -> Tree
    ensures { data_of result ≡ unwrap_or (option_map data_of tree) (object no_members) }
{
    match tree {
        Some(tree) => tree,
        None => Tree::Members(Pairs::new(alloc)),
    }
}

// ---- warnings

/// Warns of what a run is given by playbooks with these trees, and with these bindings.
fn warnings_of(
    alloc: Global,
    setup: &Setup,
    trees: &[Tree],
    bindings: &Tree,
) -> Result<Lines, AllocError>
    ensures { IfOk result (AreWarnings setup.now.books (map data_of trees.now) (data_of bindings.now)) }
{
    setup_law(setup);
    let lines = warnings(alloc, setup.books(), trees, bindings)?;
    Ok(lines)
}

fn ready_line(alloc: Global, count: usize) -> Result<String, AllocError>
    ensures { IfOk result (λ line. string_bytes line ≡ ready_line count) }
{
    format!(in alloc; "ready, warnings {count}\n")
}

/// The last line: how many stand before it.
fn add_count(alloc: Global, lines: &mut Lines) -> Result<(), AllocError>
    ensures { OnOk result (lines.new ≡ lines.old ++ ready_line (length lines.old) ∷ []) }
{
    let line = ready_line(alloc, lines.len())?;
    lines.push_text(line)?;
    Ok(())
}

/// Warns of what a run is given by texts with these trees.
fn warned(alloc: Global, setup: &Setup, trees: Vec<Tree>, bound: bool) -> Result<Lines, AllocError>
    requires { bound ≡ true → 0 < length trees.items }
    ensures { IfOk result (Warns bound (map data_of trees.items) setup.now) }
{
    let mut front = trees;
    let last = last_if(&mut front, bound);
    let bindings = tree_or_none(alloc, last);
    let mut lines = warnings_of(alloc, setup, front.as_slice(), &bindings)?;
    add_count(alloc, &mut lines)?;
    Ok(lines)
}

// ---- what texts come to

/// What the texts come to, whose trees are these.
fn judged<'w>(
    alloc: Global,
    texts: Vec<FileText<'w>>,
    trees: Vec<Tree>,
    bound: bool,
) -> Result<Report<'w>, AllocError>
    requires some { 1 + (if bound then 1 else 0) ≤ length texts.items }
    requires few { length texts.items ≤ 16 + (if bound then 1 else 0) }
    requires trees { length trees.items ≡ length texts.items }
    ensures { IfOk result (λ report. Judges bound (map text_of texts.entry.items) (map data_of trees.items) report.lines (end_of report.end)) }
{
    let mut front = texts;
    let last = last_if(&mut front, bound);
    let bind = bytes_or_none(alloc, last)?;
    let books = bytes_of(alloc, front)?;
    match Setup::read(alloc, books.as_slice(), &bind) {
        Ok(setup) => {
            let lines = warned(alloc, &setup, trees, bound)?;
            Ok(Report {
                lines,
                end: End::Done,
            })
        }
        Err(SetupError::Broken(broken)) => Ok(Report::ending(alloc, End::Refused { broken })),
        Err(SetupError::Bind { rule }) => Ok(Report::ending(alloc, End::BindRefused { rule })),
        Err(SetupError::Unreadable { .. }) => Err(AllocError),
        Err(SetupError::Memory) => Err(AllocError),
    }
}

/// The same, where no memory is an end too.
fn judged_or_memory<'w>(
    alloc: Global,
    texts: Vec<FileText<'w>>,
    trees: Vec<Tree>,
    bound: bool,
) -> Report<'w>
    requires some { 1 + (if bound then 1 else 0) ≤ length texts.items }
    requires few { length texts.items ≤ 16 + (if bound then 1 else 0) }
    requires trees { length trees.items ≡ length texts.items }
    ensures { Judges bound (map text_of texts.entry.items) (map data_of trees.items) result.lines (end_of result.end) ⊎ ((result.lines ≡ []) × (end_of result.end ≡ no_memory)) }
{
    match judged(alloc, texts, trees, bound) {
        Ok(report) => report,
        Err(_) => Report::ending(alloc, End::NoMemory),
    }
}

/// What `run` would end with before its first record, where it is given these texts, that of bindings the last if they are bound:
/// then there are no lines, and the end is that of `run`. Else a line for each warning, and one with their number. There are 1 to
/// 16 playbooks.
pub fn preflight<'w>(alloc: Global, texts: Vec<FileText<'w>>, bound: bool) -> Report<'w>
    requires some { 1 + (if bound then 1 else 0) ≤ length texts.items }
    requires few { length texts.items ≤ 16 + (if bound then 1 else 0) }
    ensures { Preflights bound (map text_of texts.entry.items) result.lines (end_of result.end) }
{
    match trees_of(alloc, texts.as_slice()) {
        Ok(trees) => judged_or_memory(alloc, texts, trees, bound),
        Err(end) => Report::ending(alloc, end),
    }
}
