// The trees of the texts that a run was given.
ghost use Rattle.std.specs.Prelude.{◌≡◌, IfOk, IsSome, All, Some, map};
ghost use Rattle.cacao_json.specs.Reading.{tree as tree_of_text};
ghost use Rattle.cacao_json.specs.Tree.{data_of};

use cacao_json::{Tree, find_tree};
use cacao_site::Bytes;
use std::alloc::{AllocError, Global};

/// The tree of a text that has one.
fn tree_of(alloc: Global, text: &Bytes) -> Result<Tree, AllocError>
    requires { IsSome (tree_of_text text.now) }
    ensures { IfOk result (λ tree. Some (data_of tree) ≡ tree_of_text text.now) }
{
    match find_tree(alloc, text.as_slice())? {
        Some(tree) => Ok(tree),
        None => unreachable!(),
    }
}

/// The trees of texts that have some, in order.
pub(crate) fn trees_of(alloc: Global, texts: &[Bytes]) -> Result<Vec<Tree>, AllocError>
    requires { All (λ text. IsSome (tree_of_text text)) texts.now }
    ensures { IfOk result (λ trees. map (λ tree. Some (data_of tree)) trees.items ≡ map tree_of_text texts.now) }
{
    let mut trees = Vec::new(alloc);
    for text in texts {
        trees.push(tree_of(alloc, text)?)?;
    }
    Ok(trees)
}
