// Where each rule is filed.
ghost use Rattle.std.specs.Prelude.{◌≡◌, false, Some, [], List, OnOk, OnErr};
ghost use Rattle.slpf_rules.specs.declared.rules.Rule.{Rule};
ghost use Rattle.slpf_rules.specs.Rules.{rule_at, is_held, place, without};
ghost use Rattle.slpf_rules.specs.Order.{IsRising};
ghost use Rattle.slpf_rules.specs.Filed.{source_net, destination_net, is_unfiled};
ghost use Rattle.slpf_rules.specs.Filing.{IsFiling};

use crate::any_nets::AnyNet;
use crate::numbers::Numbers;
use crate::rules::Rule;
use crate::sides::Side;
use oc2_nets::Flow;
use std::alloc::{AllocError, Global};

/// The numbers of rules by source net, by destination net, and of those with neither.
#[derive(Drop)]
pub(crate) struct Filing {
    pub(crate) sources: Side,
    pub(crate) destinations: Side,
    pub(crate) unfiled: Numbers,
}

/// The net of the first map: a net, or a connection's source net.
fn source_net(flow: &Flow) -> Option<AnyNet>
    ensures { result ≡ source_net flow.now }
{
    match *flow {
        Flow::Net4(net) => Some(AnyNet::V4(net)),
        Flow::Net6(net) => Some(AnyNet::V6(net)),
        Flow::Conn4 { src, .. } => src.map(AnyNet::V4),
        Flow::Conn6 { src, .. } => src.map(AnyNet::V6),
    }
}

/// The net of the second map: a net, or the destination net of a connection without a source net.
fn destination_net(flow: &Flow) -> Option<AnyNet>
    ensures { result ≡ destination_net flow.now }
{
    match *flow {
        Flow::Net4(net) => Some(AnyNet::V4(net)),
        Flow::Net6(net) => Some(AnyNet::V6(net)),
        Flow::Conn4 { src: Some(_), .. } | Flow::Conn6 { src: Some(_), .. } => None,
        Flow::Conn4 { src: None, dst, .. } => dst.map(AnyNet::V4),
        Flow::Conn6 { src: None, dst, .. } => dst.map(AnyNet::V6),
    }
}

/// Whether a rule has neither.
fn is_unfiled(rule: &Rule) -> bool
    ensures { result ≡ is_unfiled rule.now }
{
    source_net(&rule.flow).is_none() && destination_net(&rule.flow).is_none()
}

impl Filing {
    /// No rule. Takes no memory.
    pub(crate) fn new(alloc: Global) -> Filing
        ensures { IsFiling [] result }
    {
        Filing {
            sources: Side::new(alloc),
            destinations: Side::new(alloc),
            unfiled: Numbers::new(alloc),
        }
    }

    /// Files one more rule, at a moment, in milliseconds. Where memory is wanted, what is filed stays.
    pub(crate) fn file(&mut self, alloc: Global, rule: &Rule, moment: u64) -> Result<(), AllocError>
        ensures ok { OnOk result ((rules : List Rule) → IsFiling rules self.old → IsRising rules
            → is_held rule.now.number rules ≡ false → IsFiling (place rule.now rules) self.new) }
        ensures err { OnErr result ((rules : List Rule) → IsFiling rules self.old → IsRising rules
            → is_held rule.now.number rules ≡ false → IsFiling rules self.new) }
    {
        if is_unfiled(rule) {
            self.unfiled.insert(rule.number)?;
            return Ok(());
        }
        self.sources
            .file(alloc, source_net(&rule.flow), rule, moment)?;
        match self
            .destinations
            .file(alloc, destination_net(&rule.flow), rule, moment)
        {
            Ok(()) => Ok(()),
            Err(error) => {
                self.sources.unfile(source_net(&rule.flow), rule);
                Err(error)
            }
        }
    }

    /// Takes a rule out. It takes no memory.
    pub(crate) fn unfile(&mut self, rule: &Rule)
        ensures { (rules : List Rule) → IsFiling rules self.old → IsRising rules
            → rule_at rule.now.number rules ≡ Some rule.now → IsFiling (without rule.now.number rules) self.new }
    {
        if is_unfiled(rule) {
            self.unfiled.remove(rule.number);
            return;
        }
        self.sources.unfile(source_net(&rule.flow), rule);
        self.destinations.unfile(destination_net(&rule.flow), rule);
    }
}
