// A command's identifier and its arguments.
ghost use Rattle.std.specs.Prelude.{◌≡◌, IfOk, OnOk, codes, option_map};
ghost use Rattle.serde_json.specs.Data.{object, put};
ghost use Rattle.cacao_json.specs.Tree.{data_of};
ghost use Rattle.cacao_text.specs.Canon.{canon};
ghost use Rattle.flow_core_rules.specs.Filled.{command_id, addressed};
ghost use Rattle.flow_core_values.specs.Completed.{completed_args};
ghost use Rattle.flow_core_rules.specs.Filled.{completed};

use cacao_json::{Pairs, Text, Tree};
use std::alloc::{AllocError, Global};

// The identifier of a command.
fn command_id(alloc: Global, run: u64, issue: u32) -> Result<Tree, AllocError>
    ensures { IfOk result (λ tree. data_of tree ≡ command_id run issue) }
{
    let text = format!(in alloc; "{run}.{issue}")?;
    Ok(Tree::Text(Text::from_string(text)))
}

// Arguments that ask for a complete response.
fn complete(alloc: Global, pairs: Pairs) -> Result<Tree, AllocError>
    ensures { IfOk result (λ tree. canon (data_of tree) ≡ canon (completed (object pairs))) }
{
    let mut pairs = pairs;
    let _ = pairs.as_slice();
    let text = Text::from_str(alloc, "complete")?;
    let name = Text::from_str(alloc, "response_requested")?;
    pairs.put(name, Tree::Text(text))?;
    Ok(Tree::Members(pairs))
}

// The arguments of a command by those that it has, if it has any.
fn completed(alloc: Global, args: Option<Tree>) -> Result<Tree, AllocError>
    ensures { IfOk result (λ tree. canon (data_of tree) ≡ canon (completed_args (option_map data_of args))) }
{
    match args {
        None => {
            let tree = complete(alloc, Pairs::new(alloc))?;
            Ok(tree)
        }
        Some(Tree::Members(pairs)) => {
            let tree = complete(alloc, pairs)?;
            Ok(tree)
        }
        Some(other) => Ok(other),
    }
}

// Sets a member.
fn put(alloc: Global, pairs: &mut Pairs, name: &str, tree: Tree) -> Result<(), AllocError>
    ensures { OnOk result (pairs.new ≡ put name.now (data_of tree) pairs.old) }
{
    let name = Text::from_str(alloc, name)?;
    pairs.put(name, tree)?;
    Ok(())
}

// Sets the identifier of a command.
fn put_id(alloc: Global, pairs: &mut Pairs, run: u64, issue: u32) -> Result<(), AllocError>
    ensures { OnOk result (pairs.new ≡ put (codes "command_id") (command_id run issue) pairs.old) }
{
    let id = command_id(alloc, run, issue)?;
    put(alloc, pairs, "command_id", id)?;
    Ok(())
}

// The members of a command with its identifier and its arguments.
fn address(alloc: Global, run: u64, issue: u32, pairs: Pairs) -> Result<Pairs, AllocError>
    ensures { IfOk result (λ new. canon (object new) ≡ canon (addressed run issue (object pairs))) }
{
    let mut pairs = pairs;
    let _ = pairs.as_slice();
    let args = pairs.remove("args");
    let _ = pairs.as_slice();
    put_id(alloc, &mut pairs, run, issue)?;
    let _ = pairs.as_slice();
    let args = completed(alloc, args)?;
    put(alloc, &mut pairs, "args", args)?;
    Ok(pairs)
}

/// A command with its identifier, the number of its run, a point and the number of its issue, and with arguments that
/// ask for a complete response. What is no object stays as it is.
pub(crate) fn addressed(alloc: Global, run: u64, issue: u32, tree: Tree) -> Result<Tree, AllocError>
    ensures { IfOk result (λ new. canon (data_of new) ≡ canon (addressed run issue (data_of tree))) }
{
    match tree {
        Tree::Members(pairs) => {
            let pairs = address(alloc, run, issue, pairs)?;
            Ok(Tree::Members(pairs))
        }
        other => Ok(other),
    }
}
