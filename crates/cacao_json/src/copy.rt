// Copies of trees.
ghost use Rattle.std.specs.Prelude.{◌≡◌, IfOk};
ghost use Rattle.cacao_json.specs.Tree.{data_of};

use crate::tree::{Items, Pair, Pairs, Tree};
use std::alloc::{AllocError, Global};

/// A copy of the tree. `Err`: there was no memory for it.
#[cycle(copy)]
pub fn copy_tree(alloc: Global, tree: &Tree) -> Result<Tree, AllocError>
    ensures { IfOk result (λ copy. data_of copy ≡ data_of tree.now) }
{
    match tree {
        Tree::Null => Ok(Tree::Null),
        Tree::Flag(flag) => Ok(Tree::Flag(*flag)),
        Tree::Whole(number) => Ok(Tree::Whole(*number)),
        Tree::Text(text) => Ok(Tree::Text(text.clone()?)),
        Tree::List(items) => Ok(Tree::List(copy_items(alloc, items)?)),
        Tree::Members(pairs) => Ok(Tree::Members(copy_pairs(alloc, pairs)?)),
    }
}

#[cycle(copy)]
fn copy_items(alloc: Global, items: &Items) -> Result<Items, AllocError>
    ensures { IfOk result (λ copy. copy ≡ items.now) }
{
    let trees = items.as_slice();
    let mut copies = Vec::with_capacity(alloc, trees.len())?;
    for tree in trees {
        copies.push(copy_tree(alloc, tree)?)?;
    }
    Ok(Items { items: copies })
}

#[cycle(copy)]
fn copy_pairs(alloc: Global, pairs: &Pairs) -> Result<Pairs, AllocError>
    ensures { IfOk result (λ copy. copy ≡ pairs.now) }
{
    let members = pairs.as_slice();
    let mut copies = Vec::with_capacity(alloc, members.len())?;
    for pair in members {
        let name = pair.name.clone()?;
        let tree = copy_tree(alloc, &pair.tree)?;
        copies.push(Pair { name, tree })?;
    }
    Ok(Pairs { pairs: copies })
}
