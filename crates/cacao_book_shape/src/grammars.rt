// Tests of texts that take memory.
ghost use Rattle.std.specs.Prelude.{◌↔◌, IsTrue, IfOk, codes};
ghost use Rattle.cacao_ids.specs.Ids.{IsId, HasObjectType};
ghost use Rattle.cacao_ids.specs.Stamps.{IsStamp};
ghost use Rattle.cacao_json.specs.Tree.{data_of};
ghost use Rattle.cacao_book_shape.specs.Members.{Has, TextFits};

use crate::members::text_at;
use cacao_ids::{Id, Stamp};
use cacao_json::Tree;
use std::alloc::{AllocError, Global};

/// Whether a text is an identifier.
pub(crate) fn is_id(alloc: Global, text: &str) -> Result<bool, AllocError>
    ensures { IfOk result (λ fits. IsTrue fits ↔ IsId text.now) }
{
    let id = Id::read(alloc, text)?;
    Ok(id.is_some())
}

fn is_stamp(alloc: Global, text: &str) -> Result<bool, AllocError>
    ensures { IfOk result (λ fits. IsTrue fits ↔ IsStamp text.now) }
{
    let stamp = Stamp::read(alloc, text)?;
    Ok(stamp.is_some())
}

/// Whether a member is there and is an identifier.
pub(crate) fn has_id(alloc: Global, tree: &Tree, name: &str) -> Result<bool, AllocError>
    ensures { IfOk result (λ fits. IsTrue fits ↔ Has name.now (TextFits IsId) (data_of tree.now)) }
{
    let Some(text) = text_at(tree, name) else {
        return Ok(false);
    };
    let fits = is_id(alloc, text)?;
    Ok(fits)
}

/// Whether a member is there and is a stamp.
pub(crate) fn has_stamp(alloc: Global, tree: &Tree, name: &str) -> Result<bool, AllocError>
    ensures { IfOk result (λ fits. IsTrue fits ↔ Has name.now (TextFits IsStamp) (data_of tree.now)) }
{
    let Some(text) = text_at(tree, name) else {
        return Ok(false);
    };
    let fits = is_stamp(alloc, text)?;
    Ok(fits)
}

// Whether an identifier is one of a playbook.
fn is_of_playbook(id: &Id) -> bool
    ensures { IsTrue result ↔ HasObjectType (codes "playbook") id.now }
{
    id.object_type() == "playbook"
}

// Whether a text is an identifier of a playbook.
fn is_playbook_id(alloc: Global, text: &str) -> Result<bool, AllocError>
    ensures { IfOk result (λ fits. IsTrue fits ↔ (IsId text.now × HasObjectType (codes "playbook") text.now)) }
{
    let id = Id::read(alloc, text)?;
    match id {
        Some(id) => Ok(is_of_playbook(&id)),
        None => Ok(false),
    }
}

/// Whether the identifier of a book is there and is one of a playbook.
pub(crate) fn has_playbook_id(alloc: Global, tree: &Tree) -> Result<bool, AllocError>
    ensures { IfOk result (λ fits. IsTrue fits ↔ Has (codes "id") (TextFits (λ id. IsId id × HasObjectType (codes "playbook") id)) (data_of tree.now)) }
{
    let Some(text) = text_at(tree, "id") else {
        return Ok(false);
    };
    let fits = is_playbook_id(alloc, text)?;
    Ok(fits)
}
