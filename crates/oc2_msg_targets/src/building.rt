// Trees that are built.
ghost use Rattle.std.specs.Prelude.{◌≡◌, ◌<◌, ◌^◌, IfOk, OnOk, option_map};
ghost use Rattle.serde_json.specs.Data.{string, put};
ghost use Rattle.cacao_json.specs.Tree.{data_of, item_last};
ghost use Rattle.oc2_msg_targets.specs.Parts.{whole_data, one_member, unless_empty, one_text};
ghost use Rattle.oc2_msg_targets.specs.Puts.{put_part};

use cacao_json::{Items, Pairs, Text, Tree};
use std::alloc::{AllocError, Global};

/// The tree of a text.
pub fn text_tree(alloc: Global, text: &str) -> Result<Tree, AllocError>
    ensures { IfOk result (λ t. data_of t ≡ string text.now) }
{
    let text = Text::from_str(alloc, text)?;
    Ok(Tree::Text(text))
}

/// The tree of a number.
pub fn whole_tree(n: u64) -> Tree
    requires { n < 2 ^ 63 }
    ensures { data_of result ≡ whole_data n }
{
    Tree::Whole(n as i64)
}

/// One text more, at the end of a list.
pub fn push_text(alloc: Global, items: &mut Items, text: &str) -> Result<(), AllocError>
    ensures { OnOk result (items.new ≡ item_last items.old (string text.now)) }
{
    let tree = text_tree(alloc, text)?;
    items.push(tree)?;
    Ok(())
}

/// A list of one text.
pub fn one_text(alloc: Global, text: &str) -> Result<Tree, AllocError>
    ensures { IfOk result (λ t. data_of t ≡ one_text text.now) }
{
    let mut items = Items::new(alloc);
    push_text(alloc, &mut items, text)?;
    Ok(Tree::List(items))
}

/// A member set, if it is there.
pub fn put(
    alloc: Global,
    pairs: &mut Pairs,
    name: &str,
    part: Option<Tree>,
) -> Result<(), AllocError>
    ensures { OnOk result (pairs.new ≡ put_part name.now (option_map data_of part) pairs.old) }
{
    match part {
        None => Ok(()),
        Some(tree) => put_tree(alloc, pairs, name, tree),
    }
}

fn put_tree(alloc: Global, pairs: &mut Pairs, name: &str, tree: Tree) -> Result<(), AllocError>
    ensures { OnOk result (pairs.new ≡ put name.now (data_of tree) pairs.old) }
{
    let name = Text::from_str(alloc, name)?;
    pairs.put(name, tree)?;
    Ok(())
}

/// An object with one member.
pub fn one_member(alloc: Global, name: &str, tree: Tree) -> Result<Tree, AllocError>
    ensures { IfOk result (λ t. data_of t ≡ one_member name.now (data_of tree)) }
{
    let mut pairs = Pairs::new(alloc);
    put_tree(alloc, &mut pairs, name, tree)?;
    Ok(Tree::Members(pairs))
}

/// The object, if it has members.
pub fn unless_empty(pairs: Pairs) -> Option<Tree>
    ensures { option_map data_of result ≡ unless_empty pairs }
{
    if pairs.as_slice().is_empty() {
        None
    } else {
        Some(Tree::Members(pairs))
    }
}
