// Parts of trees. No call here takes memory.
ghost use Rattle.std.specs.Prelude.{◌≡◌, ◌≤◌, IfSome, MatchOption, map, option_map, None, Some};
ghost use Rattle.std.specs.List.{list_all, list_any};
ghost use Rattle.std.specs.Str.{bytes_eq};
ghost use Rattle.serde_json.specs.Find.{get, as_str, as_array, as_object};
ghost use Rattle.cacao_json.specs.Tree.{data_of, items_of, members_of, pair_data};
ghost use Rattle.serde_json.specs.Data.{object};
ghost use Rattle.oc2_msg_targets.specs.Parts.{has_only, single, is_object, is_absent_or, whole, optional};

use cacao_json::{Pair, Tree, member, text_of, whole_of};

/// The members of an object.
fn members_in(tree: &Tree) -> Option<&[Pair]>
    ensures { MatchOption result (as_object (data_of tree.now) ≡ None)
        (λ pairs. data_of tree.now ≡ object (members_of (map pair_data pairs.now))) }
{
    match tree {
        Tree::Members(pairs) => Some(pairs.as_slice()),
        _ => None,
    }
}

/// The items of an array.
pub fn items_in(tree: &Tree) -> Option<&[Tree]>
    ensures { MatchOption result (as_array (data_of tree.now) ≡ None)
        (λ items. as_array (data_of tree.now) ≡ Some (items_of (map data_of items.now))) }
{
    match tree {
        Tree::List(items) => Some(items.as_slice()),
        _ => None,
    }
}

fn is_among(name: &str, words: &[&str]) -> bool
    ensures { result ≡ list_any (λ word. bytes_eq name.now word.now) words.now }
{
    words.iter().any(|word| name == *word)
}

fn is_named_among(pair: &Pair, words: &[&str]) -> bool
    ensures { result ≡ list_any (λ word. bytes_eq (pair_data pair.now).0 word.now) words.now }
{
    is_among(pair.name.text(), words)
}

fn are_among(pairs: &[Pair], words: &[&str]) -> bool
    ensures { result ≡ list_all (λ pair. list_any (λ word. bytes_eq (pair_data pair).0 word.now) words.now) pairs.now }
{
    pairs.iter().all(|pair| is_named_among(pair, words))
}

/// Whether the tree is an object with no other members than these.
pub fn has_only(tree: &Tree, names: &[&str]) -> bool
    ensures { result ≡ has_only (map (λ word. word.now) names.now) (data_of tree.now) }
{
    match members_in(tree) {
        Some(pairs) => are_among(pairs, names),
        None => false,
    }
}

fn name_and_value(pair: &Pair) -> (&str, &Tree)
    ensures { (result.0.now, data_of result.1.now) ≡ pair_data pair.now }
{
    (pair.name.text(), &pair.tree)
}

/// The name and the value of the one member of an object.
pub fn single(tree: &Tree) -> Option<(&str, &Tree)>
    ensures { option_map (λ p. (p.0.now, data_of p.1.now)) result ≡ single (data_of tree.now) }
{
    let pairs = members_in(tree)?;
    if pairs.len() != 1 {
        return None;
    }
    Some(name_and_value(&pairs[0]))
}

fn is_object(tree: &Tree) -> bool
    ensures { result ≡ is_object (data_of tree.now) }
{
    match tree {
        Tree::Members(_) => true,
        _ => false,
    }
}

/// Whether a member is an object, or absent.
pub fn is_absent_or_object(tree: &Tree, name: &str) -> bool
    ensures { result ≡ is_absent_or is_object (get name.now (data_of tree.now)) }
{
    match member(tree, name) {
        Some(part) => is_object(part),
        None => true,
    }
}

/// The text that the tree is.
pub fn str_of(tree: &Tree) -> Option<&str>
    ensures { option_map (λ text. text.now) result ≡ as_str (data_of tree.now) }
{
    Some(text_of(tree)?.text())
}

/// The number in this range that the tree is.
pub fn whole_between(tree: &Tree, least: u64, most: u64) -> Option<u64>
    ensures value { result ≡ whole least most (data_of tree.now) }
    ensures fits { IfSome result (λ n. (least ≤ n) × (n ≤ most)) }
{
    let n = u64::try_from(whole_of(tree)?).ok()?;
    if least <= n && n <= most {
        Some(n)
    } else {
        None
    }
}

/// The number in this range that a member is. An absent member is taken as none.
pub fn optional_whole(tree: &Tree, name: &str, least: u64, most: u64) -> Option<Option<u64>>
    ensures value { result ≡ optional (whole least most) (get name.now (data_of tree.now)) }
    ensures fits { IfSome result (λ part. IfSome part (λ n. (least ≤ n) × (n ≤ most))) }
{
    match member(tree, name) {
        None => Some(None),
        Some(part) => Some(Some(whole_between(part, least, most)?)),
    }
}
