// The steps of a position.
ghost use Rattle.std.specs.Prelude.{◌≡◌, ◌≤◌, ◌∷◌, [], codes, IfOk, OnOk};
ghost use Rattle.serde_json.specs.Data.{string};
ghost use Rattle.cacao_json.specs.Tree.{data_of};
ghost use Rattle.cacao_cli_rehearsal.specs.Books.{branch, delete_step, deny_step, object_of, parallel_step, placed, put_all, sends, steps_at, steps_to};

use crate::building::{one_item, put, put_text, text_tree, two_texts};
use crate::names::{after, allows, deletes, denies, head, identifier};
use cacao_json::{Pairs, Tree};
use std::alloc::{AllocError, Global};

/// A command for filters with this content.
fn command(alloc: Global, content: &str) -> Result<Tree, AllocError>
    ensures { IfOk result (λ tree. data_of tree ≡ object_of ((codes "type", string (codes "openc2-http")) ∷ (codes "content", string content.now) ∷ [])) }
{
    let mut pairs = Pairs::new(alloc);
    put_text(alloc, &mut pairs, "type", "openc2-http")?;
    put_text(alloc, &mut pairs, "content", content)?;
    Ok(Tree::Members(pairs))
}

/// What an action has that sends one command and goes on to a step.
fn sends(alloc: Global, content: &str, next: &str) -> Result<Pairs, AllocError>
    ensures { IfOk result (λ pairs. pairs ≡ placed (sends content.now next.now)) }
{
    let agent = identifier(alloc, "net-address", 3)?;
    let command = command(alloc, content)?;
    let commands = one_item(alloc, command)?;
    let mut pairs = Pairs::new(alloc);
    put_text(alloc, &mut pairs, "type", "action")?;
    put_text(alloc, &mut pairs, "agent", agent.as_str())?;
    put(alloc, &mut pairs, "commands", commands)?;
    put_text(alloc, &mut pairs, "on_completion", next)?;
    Ok(pairs)
}

fn deny_step(alloc: Global, position: u32, next: &str) -> Result<Tree, AllocError>
    ensures { IfOk result (λ tree. data_of tree ≡ deny_step position next.now) }
{
    let content = denies(alloc, position)?;
    let names = two_texts(alloc, "__status__", "__rule__")?;
    let mut pairs = sends(alloc, content.as_str(), next)?;
    put(alloc, &mut pairs, "out_args", names)?;
    Ok(Tree::Members(pairs))
}

fn delete_step(alloc: Global, next: &str) -> Result<Tree, AllocError>
    ensures { IfOk result (λ tree. data_of tree ≡ delete_step next.now) }
{
    let pairs = sends(alloc, deletes(), next)?;
    Ok(Tree::Members(pairs))
}

fn parallel_step(alloc: Global, position: u32, next: &str) -> Result<Tree, AllocError>
    ensures { IfOk result (λ tree. data_of tree ≡ parallel_step position next.now) }
{
    let first = identifier(alloc, "action", 16 * position as u64 + 1)?;
    let second = identifier(alloc, "action", 16 * position as u64 + 2)?;
    let branches = two_texts(alloc, first.as_str(), second.as_str())?;
    let mut pairs = Pairs::new(alloc);
    put_text(alloc, &mut pairs, "type", "parallel")?;
    put(alloc, &mut pairs, "next_steps", branches)?;
    put_text(alloc, &mut pairs, "on_completion", next)?;
    Ok(Tree::Members(pairs))
}

/// Puts the first or the second branch of a position.
fn put_branch(
    alloc: Global,
    steps: &mut Pairs,
    position: u32,
    number: u32,
) -> Result<(), AllocError>
    requires { number ≤ 2 }
    ensures { OnOk result (steps.new ≡ put_all (branch position number ∷ []) steps.old) }
{
    let key = identifier(alloc, "action", 16 * position as u64 + number as u64)?;
    let end = identifier(alloc, "end", 2)?;
    let content = allows(alloc, position, number)?;
    let pairs = sends(alloc, content.as_str(), end.as_str())?;
    put(alloc, steps, key.as_str(), Tree::Members(pairs))?;
    Ok(())
}

/// Puts a parallel step and its branches.
fn put_parallel(
    alloc: Global,
    steps: &mut Pairs,
    position: u32,
    key: &str,
    next: &str,
) -> Result<(), AllocError>
    ensures { OnOk result (steps.new ≡ put_all ((key.now, parallel_step position next.now) ∷ branch position 1 ∷ branch position 2 ∷ []) steps.old) }
{
    let parallel = parallel_step(alloc, position, next)?;
    put(alloc, steps, key, parallel)?;
    put_branch(alloc, steps, position, 1)?;
    put_branch(alloc, steps, position, 2)?;
    Ok(())
}

/// Puts the steps of a position, the first of which goes on to `next`.
fn put_steps(alloc: Global, steps: &mut Pairs, position: u32, next: &str) -> Result<(), AllocError>
    ensures { OnOk result (steps.new ≡ put_all (steps_at position next.now) steps.old) }
{
    let key = head(alloc, position)?;
    match position % 3 {
        1 => {
            let deny = deny_step(alloc, position, next)?;
            put(alloc, steps, key.as_str(), deny)
        }
        2 => put_parallel(alloc, steps, position, key.as_str(), next),
        _ => {
            let delete = delete_step(alloc, next)?;
            put(alloc, steps, key.as_str(), delete)
        }
    }
}

/// Puts the steps of the positions up to the last one.
pub(crate) fn put_positions(alloc: Global, steps: &mut Pairs, last: u32) -> Result<(), AllocError>
    ensures { OnOk result (steps.new ≡ put_all (steps_to last last) steps.old) }
{
    for before in 0..last {
        let next = after(alloc, last, before + 1)?;
        put_steps(alloc, steps, before + 1, next.as_str())?;
    }
    Ok(())
}
