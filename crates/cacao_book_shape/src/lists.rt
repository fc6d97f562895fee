// Lists in a tree, and the members of an object in order. No call here takes memory.
ghost use Rattle.std.specs.Prelude.{◌≡◌, ◌↔◌, IsTrue, All, map};
ghost use Rattle.cacao_json.specs.Tree.{data_of, pair_data};
ghost use Rattle.cacao_book_shape.specs.Members.{ListOf, IsText, items_in, members_in, members_at, items_at, text_of as text_of_data};
ghost use Rattle.cacao_book_shape.specs.Orders.{IsRising};

use crate::members::{items_of, members_of};
use cacao_json::{Items, Pair, Pairs, Tree, member, text_of};

// The items as they stand in the tree.
pub(crate) fn list(items: &Items) -> &[Tree]
    ensures { items_in items.now ≡ map data_of result.now }
{
    items.as_slice()
}

// The members as they stand in the tree.
pub(crate) fn pairs(members: &Pairs) -> &[Pair]
    ensures members { members_in members.now ≡ map pair_data result.now }
    ensures rising { IsRising (members_in members.now) }
{
    members.as_slice()
}

/// The items of the list under a name; none where there is no list.
pub fn items_at<'a>(tree: &'a Tree, name: &str) -> &'a [Tree]
    ensures { map data_of result.now ≡ items_at name.now (data_of tree.now) }
{
    let Some(value) = member(tree, name) else {
        return &[];
    };
    match items_of(value) {
        Some(items) => list(items),
        None => &[],
    }
}

/// The members of the object under a name, in order; none where there is no object.
pub fn members_at<'a>(tree: &'a Tree, name: &str) -> &'a [Pair]
    ensures members { map pair_data result.now ≡ members_at name.now (data_of tree.now) }
    ensures rising { IsRising (members_at name.now (data_of tree.now)) }
{
    let Some(value) = member(tree, name) else {
        return &[];
    };
    match members_of(value) {
        Some(members) => pairs(members),
        None => &[],
    }
}

/// Whether a value is a text.
pub(crate) fn is_text(value: &Tree) -> bool
    ensures { IsTrue result ↔ IsText (data_of value.now) }
{
    text_of(value).is_some()
}

// Whether each item is a text.
fn are_texts(items: &[Tree]) -> bool
    ensures { IsTrue result ↔ All IsText (map data_of items.now) }
{
    for item in items {
        if !is_text(item) {
            return false;
        }
    }
    true
}

/// Whether a value is a list of `least` to `most` texts.
pub(crate) fn is_text_list(value: &Tree, least: usize, most: usize) -> bool
    ensures { IsTrue result ↔ ListOf least most IsText (data_of value.now) }
{
    let Some(items) = items_of(value) else {
        return false;
    };
    let items = list(items);
    least <= items.len() && items.len() <= most && are_texts(items)
}

/// The text, and the empty one where the value is none.
pub fn text_or_empty(value: &Tree) -> &str
    ensures { result.now ≡ text_of_data (data_of value.now) }
{
    match text_of(value) {
        Some(text) => text.text(),
        None => "",
    }
}
