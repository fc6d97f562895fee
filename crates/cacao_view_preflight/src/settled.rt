// Commands whose open texts are set to what fits.
ghost use Rattle.std.specs.Prelude.{◌≡◌, ◌<◌, ◌^◌, codes, IfOk, OnOk, option_and_then};
ghost use Rattle.serde_json.specs.Data.{string};
ghost use Rattle.oc2_msg_targets.specs.Parts.{whole_data};
ghost use Rattle.oc2_msg_targets.specs.Words.{kind_named};
ghost use Rattle.oc2_msg.specs.Commands.{target_part};
ghost use Rattle.cacao_json.specs.Tree.{data_of};
ghost use Rattle.cacao_view_preflight.specs.Settled.{action_for, args_members, changed, closed_items, command_members, command_settled, connection_members, fitting_action, in_array, in_object, named_settled, set_if_open, settled, slpf_members, target_settled, value_settled};

use crate::opens::{is_open, target_part};
use base_decimals::MOST_EXACT;
use cacao_json::{Items, Pairs, Tree, copy_tree};
use oc2_msg_targets::{Action, TargetKind, one_member, put, single, text_tree, whole_tree};
use std::alloc::{AllocError, Global};

fn set_if_open(tree: Tree, fitting: Tree) -> Tree
    ensures { data_of result ≡ set_if_open (data_of fitting) (data_of tree) }
{
    if is_open(&tree) { fitting } else { tree }
}

/// Sets the member with this name to what fits, if it is open.
fn settle(alloc: Global, pairs: &mut Pairs, name: &str, fitting: Tree) -> Result<(), AllocError>
    ensures { OnOk result (pairs.new ≡ settled name.now (data_of fitting) pairs.old) }
{
    let Some(found) = pairs.remove(name) else {
        return Ok(());
    };
    let made = set_if_open(found, fitting);
    put(alloc, pairs, name, Some(made))?;
    Ok(())
}

/// The same, where a text fits.
fn settle_text(
    alloc: Global,
    pairs: &mut Pairs,
    name: &str,
    fitting: &str,
) -> Result<(), AllocError>
    ensures { OnOk result (pairs.new ≡ settled name.now (string fitting.now) pairs.old) }
{
    let fitting = text_tree(alloc, fitting)?;
    settle(alloc, pairs, name, fitting)?;
    Ok(())
}

/// The same, where a number fits.
fn settle_number(
    alloc: Global,
    pairs: &mut Pairs,
    name: &str,
    fitting: u64,
) -> Result<(), AllocError>
    requires { fitting < 2 ^ 63 }
    ensures { OnOk result (pairs.new ≡ settled name.now (whole_data fitting) pairs.old) }
{
    settle(alloc, pairs, name, whole_tree(fitting))?;
    Ok(())
}

// ---- the target

fn connection_members(alloc: Global, pairs: &mut Pairs, net: &str) -> Result<(), AllocError>
    ensures { OnOk result (pairs.new ≡ connection_members net.now pairs.old) }
{
    settle_text(alloc, pairs, "protocol", "tcp")?;
    settle_text(alloc, pairs, "src_addr", net)?;
    settle_text(alloc, pairs, "dst_addr", net)?;
    settle_number(alloc, pairs, "src_port", 0)?;
    settle_number(alloc, pairs, "dst_port", 0)?;
    Ok(())
}

#[tactic(auto, using(crate::proofs::ChangeLemmas::other_stays))]
fn connection(alloc: Global, tree: Tree, net: &str) -> Result<Tree, AllocError>
    ensures { IfOk result (λ t. data_of t ≡ in_object (connection_members net.now) (data_of tree)) }
{
    match tree {
        Tree::Members(pairs) => {
            let mut pairs = pairs;
            connection_members(alloc, &mut pairs, net)?;
            Ok(Tree::Members(pairs))
        }
        other => Ok(other),
    }
}

/// The items that are not open.
fn closed_items(items: Items) -> Items
    ensures { result ≡ closed_items items }
{
    let mut trees = items.into_vec();
    trees.retain(|tree| !is_open(tree));
    Items::from_vec(trees)
}

#[tactic(auto, using(crate::proofs::ChangeLemmas::other_items_stay))]
fn features(tree: Tree) -> Tree
    ensures { data_of result ≡ in_array closed_items (data_of tree) }
{
    match tree {
        Tree::List(items) => Tree::List(closed_items(items)),
        other => other,
    }
}

fn net(alloc: Global, tree: Tree, fitting: &str) -> Result<Tree, AllocError>
    ensures { IfOk result (λ t. data_of t ≡ set_if_open (string fitting.now) (data_of tree)) }
{
    let fitting = text_tree(alloc, fitting)?;
    Ok(set_if_open(tree, fitting))
}

/// The value of a target of this kind, its open texts set to what fits.
fn value_settled(alloc: Global, kind: TargetKind, tree: Tree) -> Result<Tree, AllocError>
    ensures { IfOk result (λ t. data_of t ≡ value_settled kind (data_of tree)) }
{
    match kind {
        TargetKind::Ipv4Net => net(alloc, tree, "0.0.0.0"),
        TargetKind::Ipv6Net => net(alloc, tree, "::"),
        TargetKind::Ipv4Connection => connection(alloc, tree, "0.0.0.0"),
        TargetKind::Ipv6Connection => connection(alloc, tree, "::"),
        TargetKind::RuleNumber => Ok(set_if_open(tree, whole_tree(1))),
        TargetKind::File => Ok(tree),
        TargetKind::Features => Ok(features(tree)),
    }
}

fn named_settled(alloc: Global, name: &str, tree: Tree) -> Result<Tree, AllocError>
    ensures { IfOk result (λ t. data_of t ≡ named_settled name.now (data_of tree)) }
{
    match TargetKind::read(name) {
        Some(kind) => value_settled(alloc, kind, tree),
        None => Ok(tree),
    }
}

fn target(alloc: Global, tree: &Tree) -> Result<Tree, AllocError>
    ensures { IfOk result (λ t. data_of t ≡ target_settled (data_of tree.now)) }
{
    let Some((name, value)) = single(tree) else {
        return copy_tree(alloc, tree);
    };
    let copy = copy_tree(alloc, value)?;
    let settled = named_settled(alloc, name, copy)?;
    let made = one_member(alloc, name, settled)?;
    Ok(made)
}

fn settle_target(alloc: Global, pairs: &mut Pairs) -> Result<(), AllocError>
    ensures { OnOk result (pairs.new ≡ changed (codes "target") target_settled pairs.old) }
{
    let Some(found) = pairs.remove("target") else {
        return Ok(());
    };
    let made = target(alloc, &found)?;
    put(alloc, pairs, "target", Some(made))?;
    Ok(())
}

// ---- the arguments

fn slpf_members(alloc: Global, pairs: &mut Pairs) -> Result<(), AllocError>
    ensures { OnOk result (pairs.new ≡ slpf_members pairs.old) }
{
    settle_text(alloc, pairs, "drop_process", "none")?;
    settle_text(alloc, pairs, "direction", "both")?;
    settle_number(alloc, pairs, "insert_rule", 1)?;
    Ok(())
}

#[tactic(auto, using(crate::proofs::ChangeLemmas::other_stays))]
fn slpf(alloc: Global, tree: Tree) -> Result<Tree, AllocError>
    ensures { IfOk result (λ t. data_of t ≡ in_object slpf_members (data_of tree)) }
{
    match tree {
        Tree::Members(pairs) => {
            let mut pairs = pairs;
            slpf_members(alloc, &mut pairs)?;
            Ok(Tree::Members(pairs))
        }
        other => Ok(other),
    }
}

fn settle_slpf(alloc: Global, pairs: &mut Pairs) -> Result<(), AllocError>
    ensures { OnOk result (pairs.new ≡ changed (codes "slpf") (in_object slpf_members) pairs.old) }
{
    let Some(found) = pairs.remove("slpf") else {
        return Ok(());
    };
    let made = slpf(alloc, found)?;
    put(alloc, pairs, "slpf", Some(made))?;
    Ok(())
}

fn args_members(alloc: Global, pairs: &mut Pairs) -> Result<(), AllocError>
    ensures { OnOk result (pairs.new ≡ args_members pairs.old) }
{
    let _ = pairs.remove("response_requested");
    settle_number(alloc, pairs, "start_time", 0)?;
    settle_number(alloc, pairs, "duration", 0)?;
    settle_number(alloc, pairs, "stop_time", MOST_EXACT)?;
    settle_slpf(alloc, pairs)?;
    Ok(())
}

#[tactic(auto, using(crate::proofs::ChangeLemmas::other_stays))]
fn args(alloc: Global, tree: Tree) -> Result<Tree, AllocError>
    ensures { IfOk result (λ t. data_of t ≡ in_object args_members (data_of tree)) }
{
    match tree {
        Tree::Members(pairs) => {
            let mut pairs = pairs;
            args_members(alloc, &mut pairs)?;
            Ok(Tree::Members(pairs))
        }
        other => Ok(other),
    }
}

fn settle_args(alloc: Global, pairs: &mut Pairs) -> Result<(), AllocError>
    ensures { OnOk result (pairs.new ≡ changed (codes "args") (in_object args_members) pairs.old) }
{
    let Some(found) = pairs.remove("args") else {
        return Ok(());
    };
    let made = args(alloc, found)?;
    put(alloc, pairs, "args", Some(made))?;
    Ok(())
}

// ---- the command

/// The action that fits a target of this kind.
fn action_for(kind: TargetKind) -> Action
    ensures { result ≡ action_for kind }
{
    match kind {
        TargetKind::RuleNumber => Action::Delete,
        TargetKind::File => Action::Update,
        TargetKind::Features => Action::Query,
        _ => Action::Deny,
    }
}

fn kind_of(tree: &Tree) -> Option<TargetKind>
    ensures { result ≡ option_and_then (λ m. kind_named m.0) (target_part (data_of tree.now)) }
{
    let (name, _) = target_part(tree)?;
    TargetKind::read(name)
}

/// The action that fits the target of a command.
fn fitting_action(tree: &Tree) -> Action
    ensures { result ≡ fitting_action (data_of tree.now) }
{
    match kind_of(tree) {
        Some(kind) => action_for(kind),
        None => Action::Deny,
    }
}

fn command_members(alloc: Global, pairs: &mut Pairs, fitting: Action) -> Result<(), AllocError>
    ensures { OnOk result (pairs.new ≡ command_members fitting pairs.old) }
{
    let _ = pairs.remove("command_id");
    settle_text(alloc, pairs, "action", fitting.word())?;
    settle_target(alloc, pairs)?;
    settle_args(alloc, pairs)?;
    Ok(())
}

#[tactic(auto, using(crate::proofs::ChangeLemmas::other_stays))]
fn command(alloc: Global, tree: Tree, fitting: Action) -> Result<Tree, AllocError>
    ensures { IfOk result (λ t. data_of t ≡ in_object (command_members fitting) (data_of tree)) }
{
    match tree {
        Tree::Members(pairs) => {
            let mut pairs = pairs;
            command_members(alloc, &mut pairs, fitting)?;
            Ok(Tree::Members(pairs))
        }
        other => Ok(other),
    }
}

/// The command with each open text set to what fits.
pub(crate) fn command_settled(alloc: Global, tree: &Tree) -> Result<Tree, AllocError>
    ensures { IfOk result (λ t. data_of t ≡ command_settled (data_of tree.now)) }
{
    let copy = copy_tree(alloc, tree)?;
    let settled = command(alloc, copy, fitting_action(tree))?;
    Ok(settled)
}
