// The word `graph`: playbooks as a picture.
ghost use Rattle.std.specs.Prelude.{◌≡◌, ◌≢◌, ◌≤◌, ◌∷◌, [], IfOk, length, map, string_bytes, true, false};
ghost use Rattle.cacao_check.specs.FirstBreak.{IsAccepted};
ghost use Rattle.cacao_cli_ends.specs.Ends.{accepted};
ghost use Rattle.cacao_cli_ends.specs.Files.{shelf_call};
ghost use Rattle.cacao_cli_ends.specs.Told.{end_of};
ghost use Rattle.cacao_cli_looks.specs.Command.{text_of};
ghost use Rattle.cacao_json.specs.Tree.{data_of};
ghost use Rattle.cacao_view.specs.BookReading.{book_files};
ghost use Rattle.cacao_view.specs.Drawing.{Draws, DrawsTexts, DrawsTrees};

use cacao_check::Mode;
use cacao_cli_ends::{End, Limit};
use cacao_cli_looks::judge::judge;
use cacao_cli_looks::{FileText, read_files, trees_of};
use cacao_json::Tree;
use cacao_site::Shelf;
use cacao_view_graph::picture;
use cacao_view_words::{Lines, Report};
use std::alloc::{AllocError, Global};

/// What `graph` tells of the playbook in the file of this name, and of those that it may call: their picture, a line a statement, where they
/// are accepted.
pub(crate) fn graph<'w, L: Shelf>(
    alloc: Global,
    book: &'w str,
    libraries: &'w [String],
    shelf: &mut L,
) -> Report<'w>
    ensures draws { Draws (book.entry.now ∷ map string_bytes libraries.entry.now)
        (shelf_call (L.told shelf.old) (L.faults shelf.old) (L.faults shelf.new) (L.reads shelf.old) (L.reads shelf.new))
        result.lines (end_of result.end) }
    ensures untouched { book_files (book.entry.now ∷ map string_bytes libraries.entry.now) (book.entry.now ∷ map string_bytes libraries.entry.now) ≡ [] → shelf.new ≡ shelf.old }
    ensures files { L.told shelf.new ≡ L.told shelf.old }
{
    let limit = Limit::BookCount;
    if libraries.len() as u64 >= limit.most() {
        return Report::ending(alloc, End::Past { limit });
    }
    match names_of(alloc, book, libraries) {
        Ok(names) => draw_files(alloc, names.as_slice(), shelf),
        Err(_) => Report::ending(alloc, End::NoMemory),
    }
}

/// The names of the files of the playbooks, in order.
pub(crate) fn names_of<'w>(
    alloc: Global,
    book: &'w str,
    libraries: &'w [String],
) -> Result<Vec<&'w str>, AllocError>
    ensures { IfOk result (λ names. map (λ name. name.now) names.items ≡ book.entry.now ∷ map string_bytes libraries.entry.now) }
{
    let mut names = Vec::new(alloc);
    names.push(book)?;
    for library in libraries {
        names.push(library.as_str())?;
    }
    Ok(names)
}

/// What is told of the playbooks in the files of these names.
fn draw_files<'w, L: Shelf>(alloc: Global, names: &[&'w str], shelf: &mut L) -> Report<'w>
    requires some { 1 ≤ length names.now }
    requires few { length names.now ≤ 16 }
    ensures draws { Draws (map (λ name. name.now) names.entry.now)
        (shelf_call (L.told shelf.old) (L.faults shelf.old) (L.faults shelf.new) (L.reads shelf.old) (L.reads shelf.new))
        result.lines (end_of result.end) }
    ensures files { L.told shelf.new ≡ L.told shelf.old }
{
    match read_files(alloc, names, shelf) {
        Ok(texts) => draw_texts(alloc, texts.as_slice()),
        Err(end) => Report::ending(alloc, end),
    }
}

/// What is told of the playbooks with these texts.
fn draw_texts<'w>(alloc: Global, texts: &[FileText<'w>]) -> Report<'w>
    requires some { 1 ≤ length texts.now }
    requires few { length texts.now ≤ 16 }
    ensures { DrawsTexts (map text_of texts.entry.now) result.lines (end_of result.end) }
{
    match trees_of(alloc, texts) {
        Ok(trees) => draw_trees(alloc, trees.as_slice()),
        Err(end) => Report::ending(alloc, end),
    }
}

/// What is told of the playbooks with these trees.
fn draw_trees<'w>(alloc: Global, trees: &[Tree]) -> Report<'w>
    requires some { 1 ≤ length trees.now }
    requires few { length trees.now ≤ 16 }
    ensures { DrawsTrees (map data_of trees.now) result.lines (end_of result.end) }
{
    let end = judge(alloc, trees, Mode::Read);
    if is_accepted(&end) {
        draw_accepted(alloc, trees)
    } else {
        Report::ending(alloc, end)
    }
}

/// Whether a judgement is that no rule is broken.
fn is_accepted(end: &End<'_>) -> bool
    ensures yes { result ≡ true → end_of end.entry.now ≡ accepted }
    ensures no { result ≡ false → end_of end.entry.now ≢ accepted }
{
    matches!(end, End::Accepted)
}

/// What is told of the playbooks with these trees, which are accepted.
fn draw_accepted<'w>(alloc: Global, trees: &[Tree]) -> Report<'w>
    requires few { length trees.now ≤ 16 }
    requires accepted { IsAccepted (map data_of trees.now) Mode.Read }
    ensures { DrawsTrees (map data_of trees.now) result.lines (end_of result.end) }
{
    match picture(alloc, trees) {
        Ok(lines) => Report {
            lines: Lines::from_vec(lines),
            end: End::Done,
        },
        Err(_) => Report::ending(alloc, End::NoMemory),
    }
}
