// The word `explain`: the first break of playbooks.
ghost use Rattle.std.specs.Prelude.{◌≡◌, ◌≤◌, ◌∷◌, [], length, map, string_bytes};
ghost use Rattle.cacao_cli_ends.specs.Files.{shelf_call};
ghost use Rattle.cacao_cli_ends.specs.Told.{end_of};
ghost use Rattle.cacao_view.specs.BookReading.{book_files};
ghost use Rattle.cacao_view.specs.Explaining.{ExplainsBooks};

use crate::graph_word::names_of;
use cacao_cli_ends::{End, Limit};
use cacao_cli_looks::read_files;
use cacao_site::Shelf;
use cacao_view_explain::explain;
use cacao_view_words::Report;
use std::alloc::Global;

/// What `explain` tells of the playbook in the file of this name, and of those that it may call.
pub(crate) fn explain_books<'w, L: Shelf>(
    alloc: Global,
    book: &'w str,
    libraries: &'w [String],
    shelf: &mut L,
) -> Report<'w>
    ensures told { ExplainsBooks (book.entry.now ∷ map string_bytes libraries.entry.now)
        (shelf_call (L.told shelf.old) (L.faults shelf.old) (L.faults shelf.new) (L.reads shelf.old) (L.reads shelf.new))
        result.lines (end_of result.end) }
    ensures untouched { book_files (book.entry.now ∷ map string_bytes libraries.entry.now) (book.entry.now ∷ map string_bytes libraries.entry.now) ≡ [] → shelf.new ≡ shelf.old }
    ensures files { L.told shelf.new ≡ L.told shelf.old }
{
    let limit = Limit::BookCount;
    if libraries.len() as u64 >= limit.most() {
        return Report::ending(alloc, End::Past { limit });
    }
    match names_of(alloc, book, libraries) {
        Ok(names) => explain_files(alloc, names.as_slice(), shelf),
        Err(_) => Report::ending(alloc, End::NoMemory),
    }
}

/// What is told of the playbooks in the files of these names.
fn explain_files<'w, L: Shelf>(alloc: Global, names: &[&'w str], shelf: &mut L) -> Report<'w>
    requires some { 1 ≤ length names.now }
    requires few { length names.now ≤ 16 }
    ensures told { ExplainsBooks (map (λ name. name.now) names.entry.now)
        (shelf_call (L.told shelf.old) (L.faults shelf.old) (L.faults shelf.new) (L.reads shelf.old) (L.reads shelf.new))
        result.lines (end_of result.end) }
    ensures files { L.told shelf.new ≡ L.told shelf.old }
{
    match read_files(alloc, names, shelf) {
        Ok(texts) => explain(alloc, texts.as_slice()),
        Err(end) => Report::ending(alloc, end),
    }
}
