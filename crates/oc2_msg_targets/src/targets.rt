// Targets of commands.
ghost use Rattle.std.specs.Prelude.{◌≡◌, IfOk, IfSome};
ghost use Rattle.cacao_json.specs.Tree.{data_of};
ghost use Rattle.oc2_msg_targets.specs.declared.kinds.TargetKind.TheVariants as kind;
ghost use Rattle.oc2_msg_targets.specs.Targets.{target_in};
ghost use Rattle.oc2_msg_targets.specs.Ranges.{TargetInRange};

use crate::connections::{read_connection4, read_connection6};
use crate::feature_lists::read_features;
use crate::features::FeatureList;
use crate::kinds::TargetKind;
use crate::parts::{str_of, whole_between};
use crate::values::{net4_in, net6_in};
use cacao_json::{Text, Tree, member};
use oc2_nets::Flow;
use std::alloc::{AllocError, Global};

/// The target of a command.
#[derive(Drop)]
pub enum Target {
    Flow(Flow),
    RuleNumber(u32),
    File(Text),
    Features(FeatureList),
}

fn net4_target(tree: &Tree) -> Option<Target>
    ensures value { result ≡ target_in kind.Ipv4Net (data_of tree.now) }
    ensures fits { IfSome result TargetInRange }
{
    Some(Target::Flow(Flow::Net4(net4_in(tree)?)))
}

fn net6_target(tree: &Tree) -> Option<Target>
    ensures value { result ≡ target_in kind.Ipv6Net (data_of tree.now) }
    ensures fits { IfSome result TargetInRange }
{
    Some(Target::Flow(Flow::Net6(net6_in(tree)?)))
}

fn connection4_target(tree: &Tree) -> Option<Target>
    ensures value { result ≡ target_in kind.Ipv4Connection (data_of tree.now) }
    ensures fits { IfSome result TargetInRange }
{
    Some(Target::Flow(read_connection4(tree)?))
}

fn connection6_target(tree: &Tree) -> Option<Target>
    ensures value { result ≡ target_in kind.Ipv6Connection (data_of tree.now) }
    ensures fits { IfSome result TargetInRange }
{
    Some(Target::Flow(read_connection6(tree)?))
}

fn rule_number_target(tree: &Tree) -> Option<Target>
    ensures value { result ≡ target_in kind.RuleNumber (data_of tree.now) }
    ensures fits { IfSome result TargetInRange }
{
    let number = whole_between(tree, 1, 4_294_967_295)?;
    Some(Target::RuleNumber(number as u32))
}

fn file_target(alloc: Global, tree: &Tree) -> Result<Option<Target>, AllocError>
    ensures value { IfOk result (λ found. found ≡ target_in kind.File (data_of tree.now)) }
    ensures fits { IfOk result (λ found. IfSome found TargetInRange) }
{
    let Some(part) = member(tree, "name") else {
        return Ok(None);
    };
    let Some(name) = str_of(part) else {
        return Ok(None);
    };
    let name = Text::from_str(alloc, name)?;
    Ok(Some(Target::File(name)))
}

fn features_target(alloc: Global, tree: &Tree) -> Result<Option<Target>, AllocError>
    ensures value { IfOk result (λ found. found ≡ target_in kind.Features (data_of tree.now)) }
    ensures fits { IfOk result (λ found. IfSome found TargetInRange) }
{
    let Some(features) = read_features(alloc, tree)? else {
        return Ok(None);
    };
    Ok(Some(Target::Features(features)))
}

impl Target {
    /// The target of this kind that the tree is.
    pub fn read(alloc: Global, kind: TargetKind, tree: &Tree) -> Result<Option<Target>, AllocError>
        ensures value { IfOk result (λ found. found ≡ target_in kind (data_of tree.now)) }
        ensures fits { IfOk result (λ found. IfSome found TargetInRange) }
    {
        match kind {
            TargetKind::Ipv4Net => Ok(net4_target(tree)),
            TargetKind::Ipv6Net => Ok(net6_target(tree)),
            TargetKind::Ipv4Connection => Ok(connection4_target(tree)),
            TargetKind::Ipv6Connection => Ok(connection6_target(tree)),
            TargetKind::RuleNumber => Ok(rule_number_target(tree)),
            TargetKind::File => file_target(alloc, tree),
            TargetKind::Features => features_target(alloc, tree),
        }
    }
}
