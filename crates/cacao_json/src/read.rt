// From bytes to a tree.
ghost use Rattle.std.specs.Prelude.{◌≡◌, ◌≤◌, length, IfOk, IfErr, IfSome, Some, option_map};
ghost use Rattle.serde_json.specs.View.{view};
ghost use Rattle.cacao_json.specs.Reading.{reading, tree};
ghost use Rattle.cacao_json.specs.Refusals.{RefusesText, IsAnswerOrMemory, answer};
ghost use Rattle.cacao_json.specs.Tree.{data_of};
ghost use Rattle.cacao_json.specs.Profile.{IsTree};

use crate::convert::tree_of;
use crate::error::JsonError;
use crate::straight::{straight_tree, straight_tree_with};
use crate::tree::Tree;
use crate::whole::left_after_numbers;
use cacao_json_counts::{count_colons, left_after_members};
use json::Scratch;
use serde_json::{Category, Value};
use std::alloc::{AllocError, Global};
use std::str;

/// The most bytes of a text that `read_tree` takes.
pub const TEXT_LIMIT: usize = 1_048_576;

/// The tree of a JSON text (RFC 8259) in UTF-8: what `serde_json` reads, at most 127 levels deep, if no
/// object has a name twice (RFC 7493, section 2.3) and each number is an integer from
/// -9,007,199,254,740,991 to 9,007,199,254,740,991, written with no fraction and no exponent, and not `-0`.
pub fn read_tree(alloc: Global, bytes: &[u8]) -> Result<Tree, JsonError>
    requires { length bytes.now ≤ 1048576 }
    ensures ok { IfOk result (λ t. tree bytes.now ≡ Some (data_of t)) }
    ensures profile { IfOk result (λ t. IsTree (data_of t)) }
    ensures err { IfErr result (RefusesText bytes.now) }

    // Each text has one answer, so each answer comes exactly where its cause holds, unless memory runs out.
    ensures exact { IsAnswerOrMemory result (answer bytes.now) }
{
    read_kept(alloc, bytes)
}

fn read_kept(alloc: Global, bytes: &[u8]) -> Result<Tree, JsonError>
    requires { length bytes.now ≤ 1048576 }
    ensures ok { IfOk result (λ t. tree bytes.now ≡ Some (data_of t)) }
    ensures err { IfErr result (RefusesText bytes.now) }
{
    match straight_tree(alloc, bytes)? {
        Some(tree) => Ok(tree),
        None => read_again(alloc, bytes),
    }
}

/// The tree of a text that seemed to have none, or the cause why it has none.
fn read_again(alloc: Global, bytes: &[u8]) -> Result<Tree, JsonError>
    requires { length bytes.now ≤ 1048576 }
    ensures ok { IfOk result (λ t. tree bytes.now ≡ Some (data_of t)) }
    ensures err { IfErr result (RefusesText bytes.now) }
{
    let Some(value) = read_value(alloc, bytes)? else {
        return Err(JsonError::NotJson);
    };
    let colons = count_colons(bytes);
    let left = left_after_members(&value, colons);
    if left > 0 {
        return Err(JsonError::RepeatedName {
            colons: colons as u32,
            members: (colons - left) as u32,
        });
    }
    if let Err(left) = left_after_numbers(&value, bytes.len()) {
        let index = bytes.len() - left;
        return Err(JsonError::NotWhole {
            index: index as u32,
        });
    }
    Ok(tree_of(alloc, value)?)
}

/// The tree of a text of any length, by the rules of `read_tree`. `None`: it has none. `Err`: there was no memory
/// for the tree.
pub fn find_tree(alloc: Global, bytes: &[u8]) -> Result<Option<Tree>, AllocError>
    ensures value { IfOk result (λ found. option_map data_of found ≡ tree bytes.now) }
    ensures profile { IfOk result (λ found. IfSome found (λ t. IsTree (data_of t))) }
{
    let mut scratch = Scratch::new(alloc);
    find_tree_with(alloc, bytes, &mut scratch)
}

/// The same of one of many texts, which are read with the same memory for escapes: that of the longest text so far.
pub fn find_tree_with(
    alloc: Global,
    bytes: &[u8],
    scratch: &mut Scratch,
) -> Result<Option<Tree>, AllocError>
    ensures value { IfOk result (λ found. option_map data_of found ≡ tree bytes.now) }
    ensures profile { IfOk result (λ found. IfSome found (λ t. IsTree (data_of t))) }
{
    match straight_tree_with(alloc, bytes, scratch)? {
        Some(tree) => Ok(Some(tree)),
        None => find_again(alloc, bytes),
    }
}

fn find_again(alloc: Global, bytes: &[u8]) -> Result<Option<Tree>, AllocError>
    ensures value { IfOk result (λ found. option_map data_of found ≡ tree bytes.now) }
    ensures profile { IfOk result (λ found. IfSome found (λ t. IsTree (data_of t))) }
{
    let Some(value) = read_value(alloc, bytes)? else {
        return Ok(None);
    };
    let colons = count_colons(bytes);
    if left_after_members(&value, colons) > 0 {
        return Ok(None);
    }
    if left_after_numbers(&value, bytes.len()).is_err() {
        return Ok(None);
    }
    Ok(Some(tree_of(alloc, value)?))
}

/// What `serde_json` reads. `None`: the bytes are no JSON text in UTF-8 with at most 127 levels.
#[tactic(auto, using(crate::proofs::Utf8::utf8_tests))]
fn read_value(alloc: Global, bytes: &[u8]) -> Result<Option<Value>, AllocError>
    ensures { IfOk result (λ found. option_map view found ≡ reading bytes.now) }
{
    let Ok(text) = str::from_utf8(bytes) else {
        return Ok(None);
    };
    match Value::from_str(alloc, text) {
        Ok(value) => Ok(Some(value)),
        Err(e) if e.classify() == Category::Memory => Err(AllocError),
        Err(_) => Ok(None),
    }
}
