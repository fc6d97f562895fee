// Parts of trees.
ghost use Rattle.std.specs.Prelude.{◌≡◌, ◌∷◌, [], IfOk, OnOk};
ghost use Rattle.serde_json.specs.Data.{string, put, array};
ghost use Rattle.cacao_json.specs.Tree.{data_of, items_of};
ghost use Rattle.cacao_cli_rehearsal.specs.Books.{texts};

use cacao_json::{Items, Pairs, Text, Tree};
use std::alloc::{AllocError, Global};

/// Puts a member into an object.
pub(crate) fn put(
    alloc: Global,
    pairs: &mut Pairs,
    name: &str,
    tree: Tree,
) -> Result<(), AllocError>
    ensures { OnOk result (pairs.new ≡ put name.now (data_of tree) pairs.old) }
{
    let name = Text::from_str(alloc, name)?;
    pairs.put(name, tree)?;
    Ok(())
}

pub(crate) fn text_tree(alloc: Global, text: &str) -> Result<Tree, AllocError>
    ensures { IfOk result (λ tree. data_of tree ≡ string text.now) }
{
    let text = Text::from_str(alloc, text)?;
    Ok(Tree::Text(text))
}

/// Puts a member whose value is a text.
pub(crate) fn put_text(
    alloc: Global,
    pairs: &mut Pairs,
    name: &str,
    text: &str,
) -> Result<(), AllocError>
    ensures { OnOk result (pairs.new ≡ put name.now (string text.now) pairs.old) }
{
    let tree = text_tree(alloc, text)?;
    put(alloc, pairs, name, tree)?;
    Ok(())
}

pub(crate) fn one_item(alloc: Global, tree: Tree) -> Result<Tree, AllocError>
    ensures { IfOk result (λ list. data_of list ≡ array (items_of (data_of tree ∷ []))) }
{
    let mut items = Items::new(alloc);
    items.push(tree)?;
    Ok(Tree::List(items))
}

pub(crate) fn two_texts(alloc: Global, first: &str, second: &str) -> Result<Tree, AllocError>
    ensures { IfOk result (λ list. data_of list ≡ texts (first.now ∷ second.now ∷ [])) }
{
    let first = text_tree(alloc, first)?;
    let second = text_tree(alloc, second)?;
    let mut items = Items::new(alloc);
    items.push(first)?;
    items.push(second)?;
    Ok(Tree::List(items))
}
