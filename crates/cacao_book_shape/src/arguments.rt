// Arguments of actions: names of variables, or references to them.
ghost use Rattle.std.specs.Prelude.{◌≡◌, ◌↔◌, IsTrue, All, codes, map};
ghost use Rattle.cacao_json.specs.Tree.{data_of};
ghost use Rattle.cacao_book_shape.specs.Members.{MayHave, TextFits};
ghost use Rattle.cacao_book_shape.specs.Shape.{IsArgument, IsArguments};

use crate::lists::list;
use crate::members::items_of;
use cacao_json::{Tree, member, text_of};
use cacao_vars::Name;

// Whether this stands behind the colon of a reference.
fn is_value(text: &str) -> bool
    ensures { IsTrue result ↔ (text.now ≡ codes "value") }
{
    text == "value"
}

// Whether a text is a name or a reference.
fn is_argument(text: &str) -> bool
    ensures { IsTrue result ↔ IsArgument text.now }
{
    let Some((name, rest)) = text.split_once(':') else {
        return Name::fits(text);
    };
    if !is_value(rest) {
        return false;
    }
    Name::fits(name)
}

// Whether a value is a text that is an argument.
fn is_argument_text(value: &Tree) -> bool
    ensures { IsTrue result ↔ TextFits IsArgument (data_of value.now) }
{
    match text_of(value) {
        Some(text) => is_argument(text.text()),
        None => false,
    }
}

// Whether each item is an argument.
fn are_arguments(items: &[Tree]) -> bool
    ensures { IsTrue result ↔ All (TextFits IsArgument) (map data_of items.now) }
{
    for item in items {
        if !is_argument_text(item) {
            return false;
        }
    }
    true
}

// Whether a value is a list of at most `most` arguments.
fn is_argument_list(value: &Tree, most: usize) -> bool
    ensures { IsTrue result ↔ IsArguments most (data_of value.now) }
{
    let Some(items) = items_of(value) else {
        return false;
    };
    let items = list(items);
    if most < items.len() {
        return false;
    }
    are_arguments(items)
}

/// Whether a member is absent or a list of at most `most` arguments.
pub(crate) fn may_have_arguments(tree: &Tree, name: &str, most: usize) -> bool
    ensures { IsTrue result ↔ MayHave name.now (IsArguments most) (data_of tree.now) }
{
    match member(tree, name) {
        Some(value) => is_argument_list(value, most),
        None => true,
    }
}
