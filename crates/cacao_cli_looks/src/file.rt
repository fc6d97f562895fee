// The named files that commands read.
ghost use Rattle.std.specs.Prelude.{◌≡◌, ◌<◌, ◌≤◌, ◌∷◌, [], IfOk, length, map};
ghost use Rattle.cacao_cli_looks.specs.Command.{bytes_read, read_of, reads_of};
ghost use Rattle.cacao_cli_ends.specs.Ends.{most};
ghost use Rattle.cacao_cli_ends.specs.Files.{ReadsTo, book_file, file_within, shelf_call};

use crate::file_text::FileText;
use cacao_cli_ends::{End, FaultLine, Limit};
use cacao_site::{Bytes, Shelf, ShelfError};
use std::alloc::Global;

/// The bytes of the file of this name, as many as this limit allows.
pub fn read_bytes<'w, L: Shelf>(
    alloc: Global,
    name: &'w str,
    limit: Limit,
    shelf: &mut L,
) -> Result<Bytes, End<'w>>
    requires few { most limit < 4_294_967_296 }
    ensures reads { ReadsTo (shelf_call (L.told shelf.old) (L.faults shelf.old) (L.faults shelf.new) (L.reads shelf.old) (L.reads shelf.new))
        (file_within name.entry.now limit ∷ []) (bytes_read name.entry.now result) }
    ensures within { IfOk result (λ bytes. length bytes ≤ most limit) }
    ensures files { L.told shelf.new ≡ L.told shelf.old }
    ensures faults { L.faults shelf.old ≤ L.faults shelf.new }
{
    let line = match FaultLine::new(alloc, name) {
        Ok(line) => line,
        Err(_) => return Err(End::NoMemory),
    };
    match shelf.read(alloc, name, limit.most() as u32) {
        Ok(bytes) => Ok(bytes),
        Err(ShelfError::Missing) => Err(End::NoSuchFile { name }),
        Err(ShelfError::Failed) => Err(End::ShelfFailed { line }),
        Err(ShelfError::TooLarge) => Err(End::Past { limit }),
        Err(ShelfError::Memory) => Err(End::NoMemory),
    }
}

/// The bytes of the file of this name, at most 1,048,576.
pub fn read_file<'w, L: Shelf>(
    alloc: Global,
    name: &'w str,
    shelf: &mut L,
) -> Result<FileText<'w>, End<'w>>
    ensures reads { ReadsTo (shelf_call (L.told shelf.old) (L.faults shelf.old) (L.faults shelf.new) (L.reads shelf.old) (L.reads shelf.new))
        (book_file name.entry.now ∷ []) (read_of result) }
    ensures files { L.told shelf.new ≡ L.told shelf.old }
    ensures faults { L.faults shelf.old ≤ L.faults shelf.new }
{
    match read_bytes(alloc, name, Limit::FileBytes, shelf) {
        Ok(bytes) => Ok(FileText { name, bytes }),
        Err(end) => Err(end),
    }
}

/// The bytes of the files of these names, in order, up to the first that gives none.
pub fn read_files<'w, L: Shelf>(
    alloc: Global,
    names: &[&'w str],
    shelf: &mut L,
) -> Result<Vec<FileText<'w>>, End<'w>>
    ensures reads { ReadsTo (shelf_call (L.told shelf.old) (L.faults shelf.old) (L.faults shelf.new) (L.reads shelf.old) (L.reads shelf.new))
        (map (λ name. book_file name.now) names.entry.now) (reads_of result) }
    ensures files { L.told shelf.new ≡ L.told shelf.old }
    ensures faults { L.faults shelf.old ≤ L.faults shelf.new }
{
    let mut texts = Vec::new(alloc);
    for name in names {
        let text = match read_file(alloc, name, shelf) {
            Ok(text) => text,
            Err(end) => return Err(end),
        };
        match texts.push(text) {
            Ok(()) => {}
            Err(_) => return Err(End::NoMemory),
        }
    }
    Ok(texts)
}
