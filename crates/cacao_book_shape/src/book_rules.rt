// The rules of shape of a book, K1 to K4.
ghost use Rattle.std.specs.Prelude.{◌↔◌, IsTrue, All, IfOk, codes, map};
ghost use Rattle.cacao_ids.specs.Ids.{IsId};
ghost use Rattle.cacao_json.specs.Tree.{data_of, pair_data};
ghost use Rattle.cacao_book_shape.specs.Least.{FirstRule};
ghost use Rattle.cacao_book_shape.specs.Members.{Has, ObjectOf, IsObject};
ghost use Rattle.cacao_book_shape.specs.Shape.{K1, K2, K3, K4, KeepsOfBook, shape_number};

use crate::dictionaries::{may_have_dictionary, may_have_id_table};
use crate::grammars::{has_id, has_playbook_id, has_stamp, is_id};
use crate::lists::pairs;
use crate::members::{has_some_text, has_text, has_type, is_object, may_have_text, members_of};
use cacao_json::{Pair, Tree, member};
use std::alloc::{AllocError, Global};

// How many steps a book may have.
const MOST_STEPS: usize = 4_096;

fn keeps_k1(book: &Tree) -> bool
    ensures { IsTrue result ↔ K1 (data_of book.now) }
{
    is_object(book) && has_type(book, "playbook") && has_text(book, "spec_version", "cacao-2.0")
}

fn keeps_k2(alloc: Global, book: &Tree) -> Result<bool, AllocError>
    ensures { IfOk result (λ kept. IsTrue kept ↔ K2 (data_of book.now)) }
{
    let has_id_of_its_own = has_playbook_id(alloc, book)?;
    let has_creator = has_id(alloc, book, "created_by")?;
    let was_created = has_stamp(alloc, book, "created")?;
    let was_modified = has_stamp(alloc, book, "modified")?;
    Ok(
        has_id_of_its_own
            && has_creator
            && was_created
            && was_modified
            && has_some_text(book, "name"),
    )
}

fn keeps_k3(alloc: Global, book: &Tree) -> Result<bool, AllocError>
    ensures { IfOk result (λ kept. IsTrue kept ↔ K3 (data_of book.now)) }
{
    let has_variables = may_have_dictionary(book, "playbook_variables");
    let has_agents = may_have_id_table(alloc, book, "agent_definitions")?;
    let has_targets = may_have_id_table(alloc, book, "target_definitions")?;
    Ok(has_variables && has_agents && has_targets)
}

// Whether a member is an object under an identifier.
fn is_step(alloc: Global, pair: &Pair) -> Result<bool, AllocError>
    ensures { IfOk result (λ fits. IsTrue fits ↔ (IsId (pair_data pair.now).0 × IsObject (pair_data pair.now).1)) }
{
    let has_key = is_id(alloc, pair.name.text())?;
    Ok(has_key && is_object(&pair.tree))
}

// Whether each member is an object under an identifier.
fn are_steps(alloc: Global, members: &[Pair]) -> Result<bool, AllocError>
    ensures { IfOk result (λ fits. IsTrue fits ↔ All (λ m. IsId m.0 × IsObject m.1) (map pair_data members.now)) }
{
    for pair in members {
        if !is_step(alloc, pair)? {
            return Ok(false);
        }
    }
    Ok(true)
}

// Whether a value is an object of 1 to 4,096 steps.
fn is_workflow(alloc: Global, value: &Tree) -> Result<bool, AllocError>
    ensures { IfOk result (λ fits. IsTrue fits ↔ ObjectOf 1 4096 (λ key step. IsId key × IsObject step) (data_of value.now)) }
{
    let Some(members) = members_of(value) else {
        return Ok(false);
    };
    let members = pairs(members);
    if members.len() < 1 || MOST_STEPS < members.len() {
        return Ok(false);
    }
    let fits = are_steps(alloc, members)?;
    Ok(fits)
}

// Whether a book has its steps.
fn has_workflow(alloc: Global, book: &Tree) -> Result<bool, AllocError>
    ensures { IfOk result (λ fits. IsTrue fits ↔ Has (codes "workflow") (ObjectOf 1 4096 (λ key step. IsId key × IsObject step)) (data_of book.now)) }
{
    let Some(value) = member(book, "workflow") else {
        return Ok(false);
    };
    let fits = is_workflow(alloc, value)?;
    Ok(fits)
}

fn keeps_k4(alloc: Global, book: &Tree) -> Result<bool, AllocError>
    ensures { IfOk result (λ kept. IsTrue kept ↔ K4 (data_of book.now)) }
{
    let has_steps = has_workflow(alloc, book)?;
    Ok(
        has_some_text(book, "workflow_start")
            && may_have_text(book, "workflow_exception")
            && has_steps,
    )
}

/// The number of the first rule that a book breaks.
pub(crate) fn first_broken_of_book(alloc: Global, book: &Tree) -> Result<Option<u8>, AllocError>
    ensures { IfOk result (FirstRule shape_number (λ rule. KeepsOfBook rule (data_of book.now))) }
{
    if !keeps_k1(book) {
        return Ok(Some(1));
    }
    if !keeps_k2(alloc, book)? {
        return Ok(Some(2));
    }
    if !keeps_k3(alloc, book)? {
        return Ok(Some(3));
    }
    if !keeps_k4(alloc, book)? {
        return Ok(Some(4));
    }
    Ok(None)
}
