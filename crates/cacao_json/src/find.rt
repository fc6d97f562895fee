// Looking into a tree. No call here takes memory.
ghost use Rattle.std.specs.Prelude.{◌≡◌, ◌<◌, IfSome, option_map, option_and_then};
ghost use Rattle.serde_json.specs.Find.{get, as_str, as_number, as_integer};
ghost use Rattle.cacao_json.specs.Tree.{data_of};
ghost use Rattle.cacao_json.specs.Size.{size};

use crate::place::place_of;
use crate::tree::Tree;
use base_texts::Text;

/// The value of the member with this name. `None` where there is none, or where the tree is no object.
pub fn member<'a>(tree: &'a Tree, name: &str) -> Option<&'a Tree>
    ensures value { option_map (λ found. data_of found.now) result ≡ get name.now (data_of tree.now) }
    ensures smaller { IfSome result (λ found. size (data_of found.now) < size (data_of tree.now)) }
{
    let Tree::Members(pairs) = tree else {
        return None;
    };
    let pairs = pairs.as_slice();
    match place_of(pairs, name) {
        Ok(place) => Some(&pairs[place].tree),
        Err(_) => None,
    }
}

/// The text. `None` where the tree is none.
pub fn text_of(tree: &Tree) -> Option<&Text>
    ensures { option_map (λ text. text.now) result ≡ as_str (data_of tree.now) }
{
    match tree {
        Tree::Text(text) => Some(text),
        _ => None,
    }
}

/// The integer. `None` where the tree is none.
pub fn whole_of(tree: &Tree) -> Option<i64>
    ensures { result ≡ option_and_then as_integer (as_number (data_of tree.now)) }
{
    match tree {
        Tree::Whole(n) => Some(*n),
        _ => None,
    }
}
