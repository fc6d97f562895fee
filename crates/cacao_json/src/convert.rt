// From what `serde_json` reads to a tree.
ghost use Rattle.std.specs.Prelude.{◌≡◌, IfOk};
ghost use Rattle.serde_json.specs.View.{view, items_view, members_view};
ghost use Rattle.cacao_json.specs.Profile.{IsFormed, AreFormed, AreFormedMembers};
ghost use Rattle.cacao_json.specs.Tree.{data_of};

use crate::tree::{Items, Pair, Pairs, Tree};
use crate::whole::whole_number;
use base_texts::Text;
use serde_json::{Map, Value};
use std::alloc::{AllocError, Global};

/// The tree of a value of the profile.
#[cycle(convert)]
pub fn tree_of(alloc: Global, value: Value) -> Result<Tree, AllocError>
    requires { IsFormed (view value) }
    ensures { IfOk result (λ tree. data_of tree ≡ view value) }
{
    match value {
        Value::Null => Ok(Tree::Null),
        Value::Bool(flag) => Ok(Tree::Flag(flag)),
        Value::Number(number) => Ok(Tree::Whole(whole_number(&number).unwrap())),
        Value::String(text) => Ok(Tree::Text(Text::from_string(text))),
        Value::Array(items) => Ok(Tree::List(list_of(alloc, items)?)),
        Value::Object(pairs) => Ok(Tree::Members(pairs_of(alloc, pairs)?)),
    }
}

#[cycle(convert)]
fn list_of(alloc: Global, items: Vec<Value>) -> Result<Items, AllocError>
    requires { AreFormed (items_view items.items) }
    ensures { IfOk result (λ list. list ≡ items_view items.items) }
{
    let mut trees = Vec::with_capacity(alloc, items.len())?;
    for item in items {
        trees.push(tree_of(alloc, item)?)?;
    }
    Ok(Items { items: trees })
}

#[cycle(convert)]
fn pairs_of(alloc: Global, members: Map<String, Value>) -> Result<Pairs, AllocError>
    requires { AreFormedMembers (members_view members.entries) }
    ensures { IfOk result (λ pairs. pairs ≡ members_view members.entries) }
{
    let mut pairs = Vec::with_capacity(alloc, members.len())?;
    for (name, value) in members {
        let name = Text::from_string(name);
        let tree = tree_of(alloc, value)?;
        pairs.push(Pair { name, tree })?;
    }
    Ok(Pairs { pairs })
}
