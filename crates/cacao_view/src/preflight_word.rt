// The word `preflight`: what a run of playbooks would come to.
ghost use Rattle.std.specs.Prelude.{◌≡◌, ◌≤◌, ◌+◌, [], IfOk, List, length, map, if◌then◌else◌};
ghost use Rattle.cacao_cli_ends.specs.Files.{shelf_call};
ghost use Rattle.cacao_cli_ends.specs.Told.{end_of};
ghost use Rattle.cacao_view_preflight.specs.Preflights.{Preflights};
ghost use Rattle.cacao_view_words.specs.Asked.{book_names, maybe_text};
ghost use Rattle.cacao_view_words.specs.Texts.{Text};
ghost use Rattle.cacao_view.specs.BookReading.{ReadsBooks, book_files};
ghost use Rattle.cacao_view.specs.Flying.{FliesBooks, bound_names};

use cacao_cli_ends::{End, Limit};
use cacao_cli_looks::read_files;
use cacao_site::Shelf;
use cacao_view_preflight::preflight;
use cacao_view_words::{BookWords, Report};
use std::alloc::{AllocError, Global};

/// What `preflight` tells of the playbooks in the files of these names, with the bindings in the file of this name, if it is given.
pub(crate) fn preflight_books<'w, L: Shelf>(
    alloc: Global,
    bind: Option<&'w str>,
    books: BookWords<'w>,
    shelf: &mut L,
) -> Report<'w>
    ensures told { FliesBooks (maybe_text bind.entry) (book_names books.entry)
        (shelf_call (L.told shelf.old) (L.faults shelf.old) (L.faults shelf.new) (L.reads shelf.old) (L.reads shelf.new))
        result.lines (end_of result.end) }
    ensures untouched { book_files (book_names books.entry) (bound_names (maybe_text bind.entry) (book_names books.entry)) ≡ [] → shelf.new ≡ shelf.old }
    ensures files { L.told shelf.new ≡ L.told shelf.old }
{
    let limit = Limit::BookCount;
    if books.len() as u64 > limit.most() {
        return Report::ending(alloc, End::Past { limit });
    }
    match names_with(alloc, bind, books) {
        Ok(names) => preflight_files(alloc, names.as_slice(), bind.is_some(), shelf),
        Err(_) => Report::ending(alloc, End::NoMemory),
    }
}

/// The names of the files of playbooks, and behind them that of bindings, if it is given.
fn names_with<'w>(
    alloc: Global,
    bind: Option<&'w str>,
    books: BookWords<'w>,
) -> Result<Vec<&'w str>, AllocError>
    ensures { IfOk result (λ names. map (λ name. name.now) names.items ≡ bound_names (maybe_text bind.entry) (book_names books.entry)) }
{
    let mut names = books.names(alloc)?;
    match bind {
        None => Ok(names),
        Some(name) => {
            names.push(name)?;
            Ok(names)
        }
    }
}

/// What is told of the playbooks in the files of these names, the last of which has bindings, if they are bound.
fn preflight_files<'w, L: Shelf>(
    alloc: Global,
    names: &[&'w str],
    bound: bool,
    shelf: &mut L,
) -> Report<'w>
    requires some { 1 + (if bound then 1 else 0) ≤ length names.now }
    requires few { length names.now ≤ 16 + (if bound then 1 else 0) }
    ensures told { (books : List Text) → length books ≤ 16 → ReadsBooks (Preflights bound) books (map (λ name. name.now) names.entry.now)
        (shelf_call (L.told shelf.old) (L.faults shelf.old) (L.faults shelf.new) (L.reads shelf.old) (L.reads shelf.new))
        result.lines (end_of result.end) }
    ensures files { L.told shelf.new ≡ L.told shelf.old }
{
    match read_files(alloc, names, shelf) {
        Ok(texts) => preflight(alloc, texts, bound),
        Err(end) => Report::ending(alloc, end),
    }
}
