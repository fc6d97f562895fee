// Commands that filters refuse whatever the values are.
ghost use Rattle.std.specs.Prelude.{◌≡◌, ◌≤◌, IfOk, length, option_map};
ghost use Rattle.cacao_json.specs.Tree.{data_of};
ghost use Rattle.oc2_msg.specs.Commands.{answer_of};
ghost use Rattle.cacao_view_preflight.specs.Refused.{IsRefusedBy, IsRefusedIn};
ghost use Rattle.cacao_view_preflight.specs.Constants.{constant_in, sure_of};
ghost use Rattle.cacao_view_preflight.specs.Settled.{error_of, refusal_of, refused_always, sure_by, sure_for};

use crate::constants::with_constants;
use crate::opens::{is_open_at, opens_args, opens_target};
use crate::settled::command_settled;
use crate::sure::Sure;
use cacao_book::StepCommand;
use cacao_check_steps::is_manual;
use cacao_json::{Tree, find_tree};
use cacao_text::canonical;
use cacao_vars::Vars;
use oc2_msg::{Command, CommandError, Reason, Refusal, read_command};
use std::alloc::{AllocError, Global};

fn refused_by(error: &CommandError) -> Result<Option<Refusal>, AllocError>
    ensures { IfOk result (IsRefusedBy error.now) }
{
    match error {
        CommandError::Refused(refusal) => Ok(Some(*refusal)),
        CommandError::Memory => Err(AllocError),
    }
}

fn refused_in(read: &Result<Command, CommandError>) -> Result<Option<Refusal>, AllocError>
    ensures { IfOk result (IsRefusedIn read.now) }
{
    match read {
        Ok(_) => Ok(None),
        Err(error) => refused_by(error),
    }
}

/// The refusal of the bytes of a command, if they are refused.
fn answered(alloc: Global, bytes: &[u8]) -> Result<Option<Refusal>, AllocError>
    requires { length bytes.now ≤ 1048576 }
    ensures { IfOk result (λ refusal. refusal ≡ error_of (answer_of bytes.now)) }
{
    let read = read_command(alloc, bytes);
    let refusal = refused_in(&read)?;
    Ok(refusal)
}

/// The same, if they are short enough to be sent.
fn refusal_of(alloc: Global, bytes: &[u8]) -> Result<Option<Refusal>, AllocError>
    ensures { IfOk result (λ refusal. refusal ≡ refusal_of bytes.now) }
{
    if bytes.len() <= 1_048_576 {
        answered(alloc, bytes)
    } else {
        Ok(None)
    }
}

/// What is sure where the command is refused for this reason at best, by whether its action, its target and its arguments are open.
fn sure_for(action: bool, target: bool, args: bool, refusal: Refusal) -> Sure
    ensures { result ≡ sure_for action target args refusal.text refusal }
{
    match refusal.text {
        Reason::MalformedCommand => Sure::Answer(refusal),
        Reason::MalformedArgs => {
            if action {
                Sure::Refused
            } else if target {
                Sure::Malformed
            } else {
                Sure::Answer(refusal)
            }
        }
        Reason::UnsupportedArgs => {
            if action || target || args {
                Sure::Refused
            } else {
                Sure::Answer(refusal)
            }
        }
        _ => {
            if action {
                Sure::Refused
            } else {
                Sure::Answer(refusal)
            }
        }
    }
}

/// The same of the command with this tree.
fn sure_by(tree: &Tree, refusal: Refusal) -> Sure
    ensures { result ≡ sure_by (data_of tree.now) refusal }
{
    sure_for(
        is_open_at(tree, "action"),
        opens_target(tree),
        opens_args(tree),
        refusal,
    )
}

fn sure_if(tree: &Tree, refusal: Option<Refusal>) -> Option<Sure>
    ensures { result ≡ option_map (sure_by (data_of tree.now)) refusal }
{
    match refusal {
        Some(refusal) => Some(sure_by(tree, refusal)),
        None => None,
    }
}

/// What is sure whatever the values are, if the command is refused always.
fn refused_always(alloc: Global, tree: &Tree) -> Result<Option<Sure>, AllocError>
    ensures { IfOk result (λ sure. sure ≡ refused_always (data_of tree.now)) }
{
    let settled = command_settled(alloc, tree)?;
    let bytes = canonical(alloc, &settled)?;
    let refusal = refusal_of(alloc, bytes.as_slice())?;
    Ok(sure_if(tree, refusal))
}

/// The same of a command of a step with its own variables, in which the constants that it sees are known.
pub(crate) fn sure_of(
    alloc: Global,
    own: &Vars,
    outer: &Vars,
    command: &StepCommand,
) -> Result<Option<Sure>, AllocError>
    ensures { IfOk result (λ sure. sure ≡ sure_of (constant_in own.now outer.now) command.now) }
{
    if is_manual(command) {
        return Ok(None);
    }
    let Some(text) = &command.content else {
        return Ok(None);
    };
    let Some(tree) = find_tree(alloc, text.text().as_bytes())? else {
        return Ok(None);
    };
    let known = with_constants(alloc, own, outer, &tree)?;
    let sure = refused_always(alloc, &known)?;
    Ok(sure)
}
