// Looking into an object. No call here takes memory.
ghost use Rattle.std.specs.Prelude.{◌≡◌, ◌↔◌, IsTrue, codes, option_map, unwrap_or};
ghost use Rattle.serde_json.specs.Find.{as_bool, as_array, as_object};
ghost use Rattle.cacao_json.specs.Tree.{data_of};
ghost use Rattle.cacao_book_shape.specs.Members.{Has, MayHave, has, has_text, IsText, IsFlag, IsShort, IsUpTo, TextFits, IsObject, maybe_text, some_text, flag_at};
ghost use Rattle.cacao_book_shape.specs.Shape.{is_of_type};

use cacao_json::{Items, Pairs, Tree, member, text_of, whole_of};

/// Whether an object has a member.
pub(crate) fn has_member(tree: &Tree, name: &str) -> bool
    ensures { result ≡ has name.now (data_of tree.now) }
{
    member(tree, name).is_some()
}

/// The text under a name.
pub fn text_at<'a>(tree: &'a Tree, name: &str) -> Option<&'a str>
    ensures { option_map (λ text. text.now) result ≡ maybe_text name.now (data_of tree.now) }
{
    let value = member(tree, name)?;
    let text = text_of(value)?;
    Some(text.text())
}

/// The text under a name, and the empty one where there is none.
pub fn some_text<'a>(tree: &'a Tree, name: &str) -> &'a str
    ensures { result.now ≡ some_text name.now (data_of tree.now) }
{
    match text_at(tree, name) {
        Some(text) => text,
        None => "",
    }
}

/// Whether the member under a name is this text.
pub(crate) fn has_text(tree: &Tree, name: &str, text: &str) -> bool
    ensures { result ≡ has_text name.now text.now (data_of tree.now) }
{
    match text_at(tree, name) {
        Some(found) => found == text,
        None => false,
    }
}

/// Whether the type of a book, a step or a command is this one.
pub fn has_type(tree: &Tree, name: &str) -> bool
    ensures { result ≡ is_of_type name.now (data_of tree.now) }
{
    has_text(tree, "type", name)
}

/// The same of a tree whose type, if it has one, is this text.
pub fn is_type(tree: &Tree, found: Option<&str>, name: &str) -> bool
    requires { option_map (λ text. text.now) found ≡ maybe_text (codes "type") (data_of tree.now) }
    ensures { result ≡ is_of_type name.now (data_of tree.now) }
{
    let _ = tree;
    match found {
        Some(found) => found == name,
        None => false,
    }
}

/// Whether a member is there and is a text.
pub(crate) fn has_some_text(tree: &Tree, name: &str) -> bool
    ensures { IsTrue result ↔ Has name.now IsText (data_of tree.now) }
{
    match member(tree, name) {
        Some(value) => text_of(value).is_some(),
        None => false,
    }
}

/// Whether a member is absent or a text.
pub(crate) fn may_have_text(tree: &Tree, name: &str) -> bool
    ensures { IsTrue result ↔ MayHave name.now IsText (data_of tree.now) }
{
    match member(tree, name) {
        Some(value) => text_of(value).is_some(),
        None => true,
    }
}

/// Whether a value is a text of at most `most` bytes.
pub(crate) fn is_short_text(value: &Tree, most: usize) -> bool
    ensures { IsTrue result ↔ TextFits (IsShort most) (data_of value.now) }
{
    match text_of(value) {
        Some(text) => text.text().len() <= most,
        None => false,
    }
}

/// Whether a value is a whole number from 0 to `most`.
fn is_up_to(value: &Tree, most: u32) -> bool
    ensures { IsTrue result ↔ IsUpTo most (data_of value.now) }
{
    match whole_of(value) {
        Some(n) => 0 <= n && n <= i64::from(most),
        None => false,
    }
}

/// Whether a member is absent or a whole number from 0 to `most`.
pub(crate) fn may_have_up_to(tree: &Tree, name: &str, most: u32) -> bool
    ensures { IsTrue result ↔ MayHave name.now (IsUpTo most) (data_of tree.now) }
{
    match member(tree, name) {
        Some(value) => is_up_to(value, most),
        None => true,
    }
}

/// The flag. None where the value is none.
fn flag_of(value: &Tree) -> Option<bool>
    ensures { result ≡ as_bool (data_of value.now) }
{
    match value {
        Tree::Flag(flag) => Some(*flag),
        _ => None,
    }
}

/// Whether a member is absent or a flag.
pub(crate) fn may_have_flag(tree: &Tree, name: &str) -> bool
    ensures { IsTrue result ↔ MayHave name.now IsFlag (data_of tree.now) }
{
    match member(tree, name) {
        Some(value) => flag_of(value).is_some(),
        None => true,
    }
}

/// The flag under a name, false where there is none.
pub fn flag_at(tree: &Tree, name: &str) -> bool
    ensures { result ≡ flag_at name.now (data_of tree.now) }
{
    match member(tree, name) {
        Some(value) => flag_of(value).unwrap_or(false),
        None => false,
    }
}

/// The items of a list. None where the value is none.
pub(crate) fn items_of(value: &Tree) -> Option<&Items>
    ensures { option_map (λ items. items.now) result ≡ as_array (data_of value.now) }
{
    match value {
        Tree::List(items) => Some(items),
        _ => None,
    }
}

/// The members of an object. None where the value is none.
pub(crate) fn members_of(value: &Tree) -> Option<&Pairs>
    ensures { option_map (λ pairs. pairs.now) result ≡ as_object (data_of value.now) }
{
    match value {
        Tree::Members(pairs) => Some(pairs),
        _ => None,
    }
}

/// Whether a value is an object.
pub(crate) fn is_object(value: &Tree) -> bool
    ensures { IsTrue result ↔ IsObject (data_of value.now) }
{
    members_of(value).is_some()
}
