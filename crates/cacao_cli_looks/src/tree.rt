// The trees of the files that commands read.
ghost use Rattle.std.specs.Prelude.{◌≡◌, Err, map};
ghost use Rattle.cacao_cli_looks.specs.Command.{AreTreesOrMemory, IsTreeOrMemory, text_of};
ghost use Rattle.cacao_cli_ends.specs.Told.{end_of};
ghost use Rattle.cacao_cli_ends.specs.Work.{tree_or_end};

use crate::file_text::FileText;
use cacao_cli_ends::{End, Reason};
use cacao_json::{JsonError, Tree, read_tree};
use std::alloc::Global;

/// How a call ends where a file has no tree for this reason.
pub fn json_end<'w>(name: &'w str, error: JsonError) -> End<'w>
    ensures { Err (end_of result) ≡ tree_or_end name.entry.now (Err error) }
{
    match error {
        JsonError::NotJson => End::NotReadable {
            name,
            reason: Reason::NotJson,
        },
        JsonError::RepeatedName { colons, members } => End::NotReadable {
            name,
            reason: Reason::RepeatedName { colons, members },
        },
        JsonError::NotWhole { index } => End::NotReadable {
            name,
            reason: Reason::NotWhole { index },
        },
        JsonError::Memory => End::NoMemory,
    }
}

/// The tree of the bytes of a file.
pub fn tree_of<'w>(alloc: Global, text: &FileText<'w>) -> Result<Tree, End<'w>>
    ensures { IsTreeOrMemory (text_of text.entry.now) result }
{
    match read_tree(alloc, text.bytes.as_slice()) {
        Ok(tree) => Ok(tree),
        Err(error) => Err(json_end(text.name, error)),
    }
}

/// The trees of the bytes of these files, in order, up to the first that has none.
pub fn trees_of<'w>(alloc: Global, texts: &[FileText<'w>]) -> Result<Vec<Tree>, End<'w>>
    ensures { AreTreesOrMemory (map text_of texts.entry.now) result }
{
    let mut trees = Vec::new(alloc);
    for text in texts {
        let tree = match tree_of(alloc, text) {
            Ok(tree) => tree,
            Err(end) => return Err(end),
        };
        match trees.push(tree) {
            Ok(()) => {}
            Err(_) => return Err(End::NoMemory),
        }
    }
    Ok(trees)
}
