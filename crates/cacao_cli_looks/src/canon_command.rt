// The command `canon`.
ghost use Rattle.std.specs.Prelude.{◌≡◌, ◌≤◌, Some, IfOk};
ghost use Rattle.cacao_json.specs.Tree.{data_of};
ghost use Rattle.cacao_cli_ends.specs.Asked.{canonises};
ghost use Rattle.cacao_cli_ends.specs.Told.{end_of};
ghost use Rattle.cacao_cli_looks.specs.Looking.{Looked};
ghost use Rattle.cacao_cli_ends.specs.Files.{shelf_call};
ghost use Rattle.cacao_cli_ends.specs.Work.{canon_line};

use crate::file::read_file;
use crate::tree::tree_of;
use cacao_cli_ends::{End, say_then};
use cacao_json::Tree;
use cacao_site::{Shelf, Site};
use cacao_text::canonical_book_with_room;
use std::alloc::{AllocError, Global};
use std::mem::forget;

/// The canonical text (RFC 8785) of the tree, without the top member `signatures`, and a line feed. Room is taken for
/// as many bytes as the tree was read from, which are enough, and for the line feed and what the writer keeps ready.
fn canon_line(alloc: Global, tree: &Tree, read: usize) -> Result<Vec<u8>, AllocError>
    ensures { IfOk result (λ line. line.items ≡ canon_line (data_of tree.now)) }
{
    let room = read.saturating_add(2);
    let mut line = canonical_book_with_room(alloc, tree, room)?.into_vec();
    line.push(b'\n')?;
    Ok(line)
}

/// `canon`: says the canonical text of the tree in the file.
pub fn canon<'w, L: Shelf, S: Site>(
    alloc: Global,
    book: &'w str,
    shelf: &mut L,
    site: &mut S,
) -> End<'w>
    ensures performed { Looked (Some (canonises book.entry.now))
        (shelf_call (L.told shelf.old) (L.faults shelf.old) (L.faults shelf.new) (L.reads shelf.old) (L.reads shelf.new))
        (S.view site.old) (S.view site.new) (end_of result) }
    ensures files { L.told shelf.new ≡ L.told shelf.old }
    ensures faults { L.faults shelf.old ≤ L.faults shelf.new }
{
    let text = match read_file(alloc, book, shelf) {
        Ok(text) => text,
        Err(end) => return end,
    };
    let tree = match tree_of(alloc, &text) {
        Ok(tree) => tree,
        Err(end) => return end,
    };
    let read = text.bytes.len();
    // (the line takes as much memory as the text, which nothing asks for any more)
    drop(text);
    match canon_line(alloc, &tree, read) {
        Ok(line) => {
            // The work ends with this line, and the tree's memory goes back with that of the process, all at once.
            forget(tree);
            say_then(line.as_slice(), End::Done, site)
        }
        Err(_) => End::NoMemory,
    }
}
