// From commands to texts.
ghost use Rattle.std.specs.Prelude.{◌≡◌, IfOk, Ok, option_map};
ghost use Rattle.cacao_json.specs.Tree.{data_of};
ghost use Rattle.oc2_msg_targets.specs.declared.actions.Action.TheVariants as action;
ghost use Rattle.oc2_msg.specs.declared.commands.Command.TheVariants as command;
ghost use Rattle.oc2_msg_targets.specs.Parts.{whole_data};
ghost use Rattle.oc2_msg.specs.Commands.{answer_of};
ghost use Rattle.oc2_msg_targets.specs.Ranges.{Each};
ghost use Rattle.oc2_msg.specs.Ranges.{IsTime, InRange};
ghost use Rattle.oc2_msg.specs.Least.{direction_part, drop_part, filter_part, args_with, message, rule_action, command_data, command_text};

use crate::commands::Command;
use crate::directions::Direction;
use crate::drops::Drop3;
use cacao_json::{Pairs, Text, Tree};
use cacao_text::{Bytes2, canonical};
use oc2_msg_targets::{
    Action, FeatureList, TargetKind, features_tree, flow_tree, one_member, put, text_tree,
    unless_empty, whole_tree,
};
use std::alloc::{AllocError, Global};

/// The canonical text (RFC 8785) of the least command with this value: an absent part, the direction `both` and the
/// dropping `none` are not written.
pub fn write_command(alloc: Global, command: &Command) -> Result<Bytes2, AllocError>
    requires { InRange command.now }
    ensures text { IfOk result (λ text. text ≡ command_text command.now) }
    ensures back { IfOk result (λ text. answer_of text ≡ Ok command.now) }
{
    let tree = command_tree(alloc, command)?;
    canonical(alloc, &tree)
}

fn direction_part(alloc: Global, direction: Direction) -> Result<Option<Tree>, AllocError>
    ensures { IfOk result (λ part. option_map data_of part ≡ direction_part direction) }
{
    match direction {
        Direction::Both => Ok(None),
        Direction::Ingress => Ok(Some(text_tree(alloc, Direction::Ingress.word())?)),
        Direction::Egress => Ok(Some(text_tree(alloc, Direction::Egress.word())?)),
    }
}

fn drop_part(alloc: Global, drop: Drop3) -> Result<Option<Tree>, AllocError>
    ensures { IfOk result (λ part. option_map data_of part ≡ drop_part drop) }
{
    match drop {
        Drop3::Silent => Ok(None),
        Drop3::Reject => Ok(Some(text_tree(alloc, Drop3::Reject.word())?)),
        Drop3::FalseAck => Ok(Some(text_tree(alloc, Drop3::FalseAck.word())?)),
    }
}

fn number_part(number: Option<u32>) -> Option<Tree>
    ensures { option_map data_of result ≡ option_map whole_data number }
{
    match number {
        None => None,
        Some(number) => Some(whole_tree(number as u64)),
    }
}

fn time_part(time: Option<u64>) -> Option<Tree>
    requires { Each IsTime time }
    ensures { option_map data_of result ≡ option_map whole_data time }
{
    match time {
        None => None,
        Some(time) => Some(whole_tree(time)),
    }
}

/// The arguments of the profile.
fn filter_part(
    alloc: Global,
    direction: Direction,
    drop: Drop3,
    insert: Option<u32>,
) -> Result<Option<Tree>, AllocError>
    ensures { IfOk result (λ part. option_map data_of part ≡ filter_part direction drop insert) }
{
    let mut pairs = Pairs::new(alloc);
    put(alloc, &mut pairs, "insert_rule", number_part(insert))?;
    let drop = drop_part(alloc, drop)?;
    put(alloc, &mut pairs, "drop_process", drop)?;
    let direction = direction_part(alloc, direction)?;
    put(alloc, &mut pairs, "direction", direction)?;
    Ok(unless_empty(pairs))
}

fn args_part(
    alloc: Global,
    slpf: Option<Tree>,
    start: Option<u64>,
    stop: Option<u64>,
    duration: Option<u64>,
) -> Result<Option<Tree>, AllocError>
    requires start { Each IsTime start }
    requires stop { Each IsTime stop }
    requires duration { Each IsTime duration }
    ensures { IfOk result (λ part. option_map data_of part ≡ args_with (option_map data_of slpf) start stop duration) }
{
    let mut pairs = Pairs::new(alloc);
    put(alloc, &mut pairs, "stop_time", time_part(stop))?;
    put(alloc, &mut pairs, "start_time", time_part(start))?;
    put(alloc, &mut pairs, "slpf", slpf)?;
    put(alloc, &mut pairs, "duration", time_part(duration))?;
    Ok(unless_empty(pairs))
}

fn message(
    alloc: Global,
    action: Action,
    args: Option<Tree>,
    target: Tree,
) -> Result<Tree, AllocError>
    ensures { IfOk result (λ t. data_of t ≡ message action (option_map data_of args) (data_of target)) }
{
    let mut pairs = Pairs::new(alloc);
    put(alloc, &mut pairs, "target", Some(target))?;
    put(alloc, &mut pairs, "args", args)?;
    let action = text_tree(alloc, action.word())?;
    put(alloc, &mut pairs, "action", Some(action))?;
    Ok(Tree::Members(pairs))
}

fn rule_action(deny: bool) -> Action
    ensures { result ≡ rule_action deny }
{
    if deny { Action::Deny } else { Action::Allow }
}

fn delete_tree(alloc: Global, number: u32) -> Result<Tree, AllocError>
    ensures { IfOk result (λ t. data_of t ≡ command_data (command.Delete number)) }
{
    let target = one_member(
        alloc,
        TargetKind::RuleNumber.word(),
        whole_tree(number as u64),
    )?;
    message(alloc, Action::Delete, None, target)
}

fn update_tree(alloc: Global, name: &Text) -> Result<Tree, AllocError>
    ensures { IfOk result (λ t. data_of t ≡ command_data (command.Update name.now)) }
{
    let name = text_tree(alloc, name.text())?;
    let file = one_member(alloc, "name", name)?;
    let target = one_member(alloc, TargetKind::File.word(), file)?;
    message(alloc, Action::Update, None, target)
}

fn query_tree(alloc: Global, features: &FeatureList) -> Result<Tree, AllocError>
    ensures { IfOk result (λ t. data_of t ≡ command_data (command.Query features.now)) }
{
    let features = features_tree(alloc, features.as_slice())?;
    let target = one_member(alloc, TargetKind::Features.word(), features)?;
    message(alloc, Action::Query, None, target)
}

/// The least command with this value.
fn command_tree(alloc: Global, command: &Command) -> Result<Tree, AllocError>
    requires { InRange command.now }
    ensures { IfOk result (λ t. data_of t ≡ command_data command.now) }
{
    match command {
        Command::Rule {
            deny,
            flow,
            direction,
            drop,
            insert,
            start,
            stop,
            duration,
        } => {
            let slpf = filter_part(alloc, *direction, *drop, *insert)?;
            let args = args_part(alloc, slpf, *start, *stop, *duration)?;
            let target = flow_tree(alloc, flow)?;
            message(alloc, rule_action(*deny), args, target)
        }
        Command::Delete { number } => delete_tree(alloc, *number),
        Command::Update { name } => update_tree(alloc, name),
        Command::Query { features } => query_tree(alloc, features),
    }
}
