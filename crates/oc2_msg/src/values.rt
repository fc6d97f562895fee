// Values of arguments. No call here takes memory.
ghost use Rattle.std.specs.Prelude.{◌≡◌, option_map};
ghost use Rattle.serde_json.specs.Find.{get, as_bool};
ghost use Rattle.cacao_json.specs.Tree.{data_of};
ghost use Rattle.oc2_msg_targets.specs.Parts.{optional};
ghost use Rattle.oc2_msg.specs.Args.{direction_in, drop_in, request_in, is_request};

use crate::directions::Direction;
use crate::drops::Drop3;
use cacao_json::{Tree, member};
use oc2_msg_targets::str_of;

fn direction_in(tree: &Tree) -> Option<Direction>
    ensures { result ≡ direction_in (data_of tree.now) }
{
    Direction::read(str_of(tree)?)
}

fn drop_in(tree: &Tree, denies: bool) -> Option<Drop3>
    ensures { result ≡ drop_in denies (data_of tree.now) }
{
    if !denies {
        return None;
    }
    Drop3::read(str_of(tree)?)
}

fn is_request(text: &str) -> bool
    ensures { result ≡ is_request text.now }
{
    text == "none" || text == "ack" || text == "status" || text == "complete"
}

fn request_in(tree: &Tree) -> Option<&str>
    ensures { option_map (λ word. word.now) result ≡ request_in (data_of tree.now) }
{
    let word = str_of(tree)?;
    if is_request(word) { Some(word) } else { None }
}

fn flag_of(tree: &Tree) -> Option<bool>
    ensures { result ≡ as_bool (data_of tree.now) }
{
    match tree {
        Tree::Flag(flag) => Some(*flag),
        _ => None,
    }
}

pub fn optional_direction(tree: &Tree, name: &str) -> Option<Option<Direction>>
    ensures { result ≡ optional direction_in (get name.now (data_of tree.now)) }
{
    match member(tree, name) {
        None => Some(None),
        Some(part) => Some(Some(direction_in(part)?)),
    }
}

pub fn optional_drop(tree: &Tree, name: &str, denies: bool) -> Option<Option<Drop3>>
    ensures { result ≡ optional (drop_in denies) (get name.now (data_of tree.now)) }
{
    match member(tree, name) {
        None => Some(None),
        Some(part) => Some(Some(drop_in(part, denies)?)),
    }
}

pub fn optional_flag(tree: &Tree, name: &str) -> Option<Option<bool>>
    ensures { result ≡ optional as_bool (get name.now (data_of tree.now)) }
{
    match member(tree, name) {
        None => Some(None),
        Some(part) => Some(Some(flag_of(part)?)),
    }
}

/// A response that is asked for, its word.
pub fn optional_request<'a>(tree: &'a Tree, name: &str) -> Option<Option<&'a str>>
    ensures { option_map (option_map (λ word. word.now)) result ≡ optional request_in (get name.now (data_of tree.now)) }
{
    match member(tree, name) {
        None => Some(None),
        Some(part) => Some(Some(request_in(part)?)),
    }
}
