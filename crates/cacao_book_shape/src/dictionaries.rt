// Variable dictionaries, and tables under identifiers.
ghost use Rattle.std.specs.Prelude.{◌↔◌, ◌≤◌, IsTrue, All, IfOk, codes, length, map};
ghost use Rattle.cacao_ids.specs.Ids.{IsId};
ghost use Rattle.cacao_vars.specs.Names.{IsName};
ghost use Rattle.cacao_json.specs.Tree.{data_of, pair_data};
ghost use Rattle.cacao_book_shape.specs.Members.{Has, MayHave, TextFits, IsShort};
ghost use Rattle.cacao_book_shape.specs.Shape.{IsDeclaration, IsDictionary, IsIdTable};

use crate::grammars::is_id;
use crate::lists::pairs;
use crate::members::{is_short_text, may_have_flag, members_of, text_at};
use cacao_json::{Pair, Tree, member};
use cacao_vars::Name;
use std::alloc::{AllocError, Global};

// How many bytes the name of a type may have, and how many a value; how many variables a dictionary may have.
const MOST_TYPE: usize = 64;

const MOST_VALUE: usize = 4_096;

const MOST_VARIABLES: usize = 1_024;

// Whether the type of a variable is there and is a text of 1 to 64 bytes.
fn has_type_name(tree: &Tree) -> bool
    ensures { IsTrue result ↔ Has (codes "type") (TextFits (λ text. (1 ≤ length text) × IsShort 64 text)) (data_of tree.now) }
{
    match text_at(tree, "type") {
        Some(text) => 1 <= text.len() && text.len() <= MOST_TYPE,
        None => false,
    }
}

// Whether the value of a variable is absent or a text of at most 4,096 bytes.
fn may_have_value(tree: &Tree) -> bool
    ensures { IsTrue result ↔ MayHave (codes "value") (TextFits (IsShort 4096)) (data_of tree.now) }
{
    match member(tree, "value") {
        Some(value) => is_short_text(value, MOST_VALUE),
        None => true,
    }
}

// Whether a value declares a variable.
fn is_declaration(tree: &Tree) -> bool
    ensures { IsTrue result ↔ IsDeclaration (data_of tree.now) }
{
    has_type_name(tree)
        && may_have_value(tree)
        && may_have_flag(tree, "constant")
        && may_have_flag(tree, "external")
}

// Whether a member declares a variable by its name.
fn declares(pair: &Pair) -> bool
    ensures { IsTrue result ↔ (IsName (pair_data pair.now).0 × IsDeclaration (pair_data pair.now).1) }
{
    Name::fits(pair.name.text()) && is_declaration(&pair.tree)
}

// Whether each member declares a variable.
fn each_declares(members: &[Pair]) -> bool
    ensures { IsTrue result ↔ All (λ m. IsName m.0 × IsDeclaration m.1) (map pair_data members.now) }
{
    for pair in members {
        if !declares(pair) {
            return false;
        }
    }
    true
}

// Whether a value is a variable dictionary.
fn is_dictionary(value: &Tree) -> bool
    ensures { IsTrue result ↔ IsDictionary (data_of value.now) }
{
    let Some(members) = members_of(value) else {
        return false;
    };
    let members = pairs(members);
    if MOST_VARIABLES < members.len() {
        return false;
    }
    each_declares(members)
}

/// Whether a member is absent or a variable dictionary.
pub(crate) fn may_have_dictionary(tree: &Tree, name: &str) -> bool
    ensures { IsTrue result ↔ MayHave name.now IsDictionary (data_of tree.now) }
{
    match member(tree, name) {
        Some(value) => is_dictionary(value),
        None => true,
    }
}

// Whether a member's name is an identifier.
fn is_named_by_id(alloc: Global, pair: &Pair) -> Result<bool, AllocError>
    ensures { IfOk result (λ fits. IsTrue fits ↔ IsId (pair_data pair.now).0) }
{
    let fits = is_id(alloc, pair.name.text())?;
    Ok(fits)
}

// Whether each member's name is an identifier.
fn are_named_by_ids(alloc: Global, members: &[Pair]) -> Result<bool, AllocError>
    ensures { IfOk result (λ fits. IsTrue fits ↔ All (λ m. IsId m.0) (map pair_data members.now)) }
{
    for pair in members {
        if !is_named_by_id(alloc, pair)? {
            return Ok(false);
        }
    }
    Ok(true)
}

// Whether a value is an object whose names are identifiers.
fn is_id_table(alloc: Global, value: &Tree) -> Result<bool, AllocError>
    ensures { IfOk result (λ fits. IsTrue fits ↔ IsIdTable (data_of value.now)) }
{
    let Some(members) = members_of(value) else {
        return Ok(false);
    };
    let fits = are_named_by_ids(alloc, pairs(members))?;
    Ok(fits)
}

/// Whether a member is absent or an object whose names are identifiers.
pub(crate) fn may_have_id_table(alloc: Global, tree: &Tree, name: &str) -> Result<bool, AllocError>
    ensures { IfOk result (λ fits. IsTrue fits ↔ MayHave name.now IsIdTable (data_of tree.now)) }
{
    let Some(value) = member(tree, name) else {
        return Ok(true);
    };
    let fits = is_id_table(alloc, value)?;
    Ok(fits)
}
