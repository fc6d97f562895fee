// From bytes to a command.
ghost use Rattle.std.specs.Prelude.{◌≡◌, ◌≤◌, IfOk, IfSome, length, option_map, option_and_then};
ghost use Rattle.cacao_json.specs.Tree.{data_of};
ghost use Rattle.oc2_msg_targets.specs.Words.{kind_named, is_deny};
ghost use Rattle.oc2_msg.specs.Args.{args_in};
ghost use Rattle.oc2_msg.specs.Commands.{taken_by, command_with, answer_to, answer_of, refusal};
ghost use Rattle.oc2_msg.specs.Messages.{IsAnswerOrMemory};
ghost use Rattle.oc2_msg_targets.specs.Ranges.{TargetInRange};
ghost use Rattle.oc2_msg.specs.Ranges.{InRange, ArgsInRange, HasTimes};

use crate::arguments::Args;
use crate::commands::Command;
use crate::directions::Direction;
use crate::drops::Drop3;
use crate::messages::Message;
use crate::reasons::Reason;
use crate::refusals::{CommandError, Refusal};
use cacao_json::{JsonError, Tree, read_tree};
use oc2_msg_targets::{Action, Target, TargetKind};
use std::alloc::Global;

/// The command of a text (OpenC2 Language 1.0, section 3.3.1; OpenC2 SLPF 1.0, section 2), or the status and the text
/// of the first row of the table of refusals that holds: 400 `malformed command`, 501 `unsupported action`, 501 `unsupported pair`,
/// 400 `malformed target`, 400 `malformed args`, 501 `unsupported args`.
pub fn read_command(alloc: Global, bytes: &[u8]) -> Result<Command, CommandError>
    requires { length bytes.now ≤ 1_048_576 }
    ensures answer { IsAnswerOrMemory result (answer_of bytes.now) }
    ensures in_range { IfOk result InRange }
{
    match read_tree(alloc, bytes) {
        Ok(tree) => read_message(alloc, &tree),
        Err(JsonError::Memory) => Err(CommandError::Memory),
        Err(_) => Err(refused(400, Reason::MalformedCommand)),
    }
}

fn refused(status: u16, text: Reason) -> CommandError
    ensures { result ≡ CommandError.Refused (refusal status text) }
{
    CommandError::Refused(Refusal { status, text })
}

/// The kind of this name, if the action takes it.
fn kind_for(action: Action, name: &str) -> Option<TargetKind>
    ensures { result ≡ option_and_then (taken_by action) (kind_named name.now) }
{
    let kind = TargetKind::read(name)?;
    if kind.is_taken_by(action) {
        Some(kind)
    } else {
        None
    }
}

/// The arguments, none where they are absent.
fn args_of(part: Option<&Tree>, denies: bool) -> Option<Args>
    ensures value { result ≡ args_in denies (option_map (λ part. data_of part.now) part.entry) }
    ensures fits { IfSome result (ArgsInRange denies) }
    ensures times { IfSome result HasTimes }
{
    match part {
        Some(tree) => Args::read(tree, denies),
        None => Some(Args::none()),
    }
}

/// The command with these parts.
fn command_with(action: Action, target: Target, args: Args) -> Command
    requires target { TargetInRange target }
    requires args { ArgsInRange (is_deny action) args }
    requires times { HasTimes args }
    ensures value { result ≡ command_with action target args }
    ensures in_range { InRange result }
{
    match target {
        Target::Flow(flow) => Command::Rule {
            deny: action.is_deny(),
            flow,
            direction: args.slpf.direction.unwrap_or(Direction::Both),
            drop: args.slpf.drop_process.unwrap_or(Drop3::Silent),
            insert: args.slpf.insert_rule,
            start: args.start_time,
            stop: args.stop_time,
            duration: args.duration,
        },
        Target::RuleNumber(number) => Command::Delete { number },
        Target::File(name) => Command::Update { name },
        Target::Features(features) => Command::Query { features },
    }
}

/// The answer to a tree.
fn read_message(alloc: Global, tree: &Tree) -> Result<Command, CommandError>
    ensures answer { IsAnswerOrMemory result (answer_to (data_of tree.now)) }
    ensures in_range { IfOk result InRange }
{
    let Some(message) = Message::read(tree) else {
        return Err(refused(400, Reason::MalformedCommand));
    };
    let Some(action) = Action::read(message.action) else {
        return Err(refused(501, Reason::UnsupportedAction));
    };
    let Some(kind) = kind_for(action, message.target) else {
        return Err(refused(501, Reason::UnsupportedPair));
    };
    let Some(target) = Target::read(alloc, kind, message.value)? else {
        return Err(refused(400, Reason::MalformedTarget));
    };
    let Some(args) = args_of(message.args, action.is_deny()) else {
        return Err(refused(400, Reason::MalformedArgs));
    };
    if args.is_unserved(action.adds_rule()) {
        return Err(refused(501, Reason::UnsupportedArgs));
    }
    Ok(command_with(action, target, args))
}
