// The playbook of a rehearsal.
ghost use Rattle.std.specs.Prelude.{◌≡◌, ◌≤◌, ◌∷◌, [], IfOk, OnOk, Some, codes, length};
ghost use Rattle.cacao_json.specs.Reading.{tree};
ghost use Rattle.cacao_json.specs.Tree.{data_of};
ghost use Rattle.cacao_cli_rehearsal.specs.Books.{agent, ends, integer, names, object_of, parts, put_all, rehearsal, rehearsal_text, starts, workflow};

use crate::building::{put, put_text};
use crate::names::{after, identifier};
use crate::steps::put_positions;
use cacao_json::{Pairs, Tree, tree_law};
use cacao_site::Bytes;
use cacao_text::canonical;
use std::alloc::{AllocError, Global};

const STAMP: &str = "2024-01-01T00:00:00Z";

/// A variable without a value.
fn integer(alloc: Global) -> Result<Tree, AllocError>
    ensures { IfOk result (λ tree. data_of tree ≡ integer) }
{
    let mut pairs = Pairs::new(alloc);
    put_text(alloc, &mut pairs, "type", "integer")?;
    Ok(Tree::Members(pairs))
}

fn variables(alloc: Global) -> Result<Tree, AllocError>
    ensures { IfOk result (λ tree. data_of tree ≡ object_of ((codes "__status__", integer) ∷ (codes "__rule__", integer) ∷ [])) }
{
    let status = integer(alloc)?;
    let rule = integer(alloc)?;
    let mut pairs = Pairs::new(alloc);
    put(alloc, &mut pairs, "__status__", status)?;
    put(alloc, &mut pairs, "__rule__", rule)?;
    Ok(Tree::Members(pairs))
}

fn agents(alloc: Global) -> Result<Tree, AllocError>
    ensures { IfOk result (λ tree. data_of tree ≡ object_of ((agent, object_of []) ∷ [])) }
{
    let agent = identifier(alloc, "net-address", 3)?;
    let mut pairs = Pairs::new(alloc);
    let nothing = Tree::Members(Pairs::new(alloc));
    put(alloc, &mut pairs, agent.as_str(), nothing)?;
    Ok(Tree::Members(pairs))
}

/// Puts the start step.
fn put_start(alloc: Global, steps: &mut Pairs, last: u32) -> Result<(), AllocError>
    ensures { OnOk result (steps.new ≡ put_all (starts last) steps.old) }
{
    let key = identifier(alloc, "start", 1)?;
    let first = after(alloc, last, 0)?;
    let mut pairs = Pairs::new(alloc);
    put_text(alloc, &mut pairs, "type", "start")?;
    put_text(alloc, &mut pairs, "on_completion", first.as_str())?;
    put(alloc, steps, key.as_str(), Tree::Members(pairs))?;
    Ok(())
}

/// Puts the end step.
fn put_end(alloc: Global, steps: &mut Pairs) -> Result<(), AllocError>
    ensures { OnOk result (steps.new ≡ put_all ends steps.old) }
{
    let key = identifier(alloc, "end", 2)?;
    let mut pairs = Pairs::new(alloc);
    put_text(alloc, &mut pairs, "type", "end")?;
    put(alloc, steps, key.as_str(), Tree::Members(pairs))?;
    Ok(())
}

fn workflow(alloc: Global, last: u32) -> Result<Tree, AllocError>
    ensures { IfOk result (λ tree. data_of tree ≡ workflow last) }
{
    let mut steps = Pairs::new(alloc);
    put_start(alloc, &mut steps, last)?;
    put_end(alloc, &mut steps)?;
    put_positions(alloc, &mut steps, last)?;
    Ok(Tree::Members(steps))
}

/// Puts what says which playbook this is.
fn put_names(alloc: Global, pairs: &mut Pairs) -> Result<(), AllocError>
    ensures { OnOk result (pairs.new ≡ put_all names pairs.old) }
{
    let id = identifier(alloc, "playbook", 5)?;
    let creator = identifier(alloc, "identity", 4)?;
    put_text(alloc, pairs, "type", "playbook")?;
    put_text(alloc, pairs, "spec_version", "cacao-2.0")?;
    put_text(alloc, pairs, "id", id.as_str())?;
    put_text(alloc, pairs, "name", "rehearsal")?;
    put_text(alloc, pairs, "created_by", creator.as_str())?;
    put_text(alloc, pairs, "created", STAMP)?;
    put_text(alloc, pairs, "modified", STAMP)?;
    Ok(())
}

/// Puts the parts of the playbook.
fn put_parts(alloc: Global, pairs: &mut Pairs, positions: u32) -> Result<(), AllocError>
    ensures { OnOk result (pairs.new ≡ put_all (parts positions) pairs.old) }
{
    let start = identifier(alloc, "start", 1)?;
    let agents = agents(alloc)?;
    let variables = variables(alloc)?;
    let workflow = workflow(alloc, positions)?;
    put(alloc, pairs, "agent_definitions", agents)?;
    put(alloc, pairs, "playbook_variables", variables)?;
    put_text(alloc, pairs, "workflow_start", start.as_str())?;
    put(alloc, pairs, "workflow", workflow)?;
    Ok(())
}

/// The tree of the playbook with so many positions.
pub(crate) fn rehearsal(alloc: Global, positions: u32) -> Result<Tree, AllocError>
    ensures { IfOk result (λ tree. data_of tree ≡ rehearsal positions) }
{
    let mut pairs = Pairs::new(alloc);
    put_names(alloc, &mut pairs)?;
    put_parts(alloc, &mut pairs, positions)?;
    Ok(Tree::Members(pairs))
}

/// The canonical text (RFC 8785) of the playbook with so many positions, which reads back. With up to 1,000 positions it has at most
/// 1,048,576 bytes.
pub fn rehearsal_text(alloc: Global, positions: u32) -> Result<Bytes, AllocError>
    ensures text { IfOk result (λ text. text ≡ rehearsal_text positions) }
    ensures reads { IfOk result (λ text. tree text ≡ Some (rehearsal positions)) }
    ensures short { positions ≤ 1_000 → IfOk result (λ text. length text ≤ 1_048_576) }
{
    let tree = rehearsal(alloc, positions)?;
    tree_law(&tree);
    let text = canonical(alloc, &tree)?;
    Ok(Bytes::from_vec(text.into_vec()))
}
