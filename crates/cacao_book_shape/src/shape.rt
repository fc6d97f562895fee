// The first break of the rules of shape.
ghost use Rattle.std.specs.Prelude.{◌≡◌, OnOk, IfOk, IfErr};
ghost use Rattle.cacao_json.specs.Tree.{data_of, pair_data};
ghost use Rattle.cacao_book_shape.specs.Least.{FirstRule};
ghost use Rattle.cacao_book_shape.specs.Shape.{IsWellShaped, KeepsOfStep, shape_number};
ghost use Rattle.cacao_book_shape.specs.Refusals.{RefusesTree};

use crate::book_rules::first_broken_of_book;
use crate::lists::members_at;
use crate::refusals::BookError;
use crate::step_rules::first_broken_of_step;
use cacao_json::{Pair, Text, Tree};
use std::alloc::{AllocError, Global};

// The first rule that a step breaks.
fn first_broken_of_member(alloc: Global, pair: &Pair) -> Result<Option<u8>, AllocError>
    ensures { IfOk result (FirstRule shape_number (λ rule. KeepsOfStep rule (pair_data pair.now).1)) }
{
    let broken = first_broken_of_step(alloc, &pair.tree)?;
    Ok(broken)
}

// The key of a step.
fn key_of(alloc: Global, pair: &Pair) -> Result<Text, AllocError>
    ensures { IfOk result (λ key. key ≡ (pair_data pair.now).0) }
{
    let key = Text::from_str(alloc, pair.name.text())?;
    Ok(key)
}

/// Refuses a tree that breaks one of the rules K1 to K12 by its first break.
pub fn test_shape(alloc: Global, tree: &Tree) -> Result<(), BookError>
    ensures shaped { OnOk result (IsWellShaped (data_of tree.now)) }
    ensures broken { IfErr result (RefusesTree (data_of tree.now)) }
{
    if let Some(rule) = first_broken_of_book(alloc, tree)? {
        return Err(BookError::Shape { step: None, rule });
    }
    for pair in members_at(tree, "workflow") {
        if let Some(rule) = first_broken_of_member(alloc, pair)? {
            let key = key_of(alloc, pair)?;
            return Err(BookError::Shape {
                step: Some(key),
                rule,
            });
        }
    }
    Ok(())
}
