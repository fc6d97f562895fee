// The rules of shape.
use crate::samples::Samples;
use crate::words::word;
use cacao_book_shape::{BookError, test_shape};
use cacao_json::{Text, Tree, find_tree};
use std::alloc::{AllocError, Global};
use test_rows::Row;

/// The tree of the playbook that blocks a host, with one text in place of another.
pub(crate) fn edited(
    alloc: Global,
    samples: &Samples,
    old: &str,
    new: &str,
) -> Result<Option<Tree>, AllocError> {
    let text = samples.host().replace(alloc, old, new)?;
    find_tree(alloc, text.as_str().as_bytes())
}

/// A broken rule, and the key of its step.
fn broken(alloc: Global, step: Option<Text>, rule: u8) -> Result<String, AllocError> {
    match step {
        Some(key) => {
            let key = key.into_string(alloc)?;
            format!(in alloc; "{rule} {key}")
        }
        None => format!(in alloc; "{rule}"),
    }
}

/// The first rule that a tree breaks.
fn first_broken(alloc: Global, tree: &Tree) -> Result<String, AllocError> {
    match test_shape(alloc, tree) {
        Ok(()) => word(alloc, "taken"),
        Err(BookError::Memory) => word(alloc, "out of memory"),
        Err(BookError::Shape { step, rule }) => broken(alloc, step, rule),
    }
}

/// What a row is answered.
pub(crate) fn answer(alloc: Global, samples: &Samples, row: &Row) -> Result<String, AllocError> {
    match edited(alloc, samples, row.text(0), row.text(1))? {
        Some(tree) => {
            let said = first_broken(alloc, &tree);
            drop(tree);
            said
        }
        None => word(alloc, "no tree"),
    }
}
