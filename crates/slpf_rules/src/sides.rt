// Rules by the nets of one side of their packets.
ghost use Rattle.std.specs.Prelude.{◌≡◌, false, Some, Option, [], List, OnOk, OnErr};
ghost use Rattle.oc2_nets.specs.declared.flows.Flow.{Flow};
ghost use Rattle.slpf_rules.specs.declared.any_nets.AnyNet.{AnyNet};
ghost use Rattle.slpf_rules.specs.declared.rules.Rule.{Rule};
ghost use Rattle.slpf_rules.specs.Rules.{rule_at, is_held, place, without};
ghost use Rattle.slpf_rules.specs.Order.{IsRising};
ghost use Rattle.slpf_rules.specs.Filing.{IsSide};

use crate::any_nets::AnyNet;
use crate::blocks::Blocks;
use crate::index::Index;
use crate::lists::Lists;
use crate::quick::Quick;
use crate::quick6::Quick6;
use crate::rules::Rule;
use std::alloc::{AllocError, Global};

/// The numbers of rules by net, and beside them what is read first of a net.
#[derive(Drop)]
pub(crate) struct Side {
    pub(crate) index: Index,
    pub(crate) quick: Quick,
    pub(crate) quick6: Quick6,
    pub(crate) blocks: Blocks,
    pub(crate) lists: Lists,
}

impl Side {
    /// No rule. Takes no memory.
    pub(crate) fn new(alloc: Global) -> Side
        ensures { (net_of : Flow → Option AnyNet) → IsSide net_of [] result }
    {
        Side {
            index: Index::new(alloc),
            quick: Quick::new(alloc),
            quick6: Quick6::new(alloc),
            blocks: Blocks::new(),
            lists: Lists::new(alloc),
        }
    }

    /// Files a rule under its net, if it has one, at a moment, in milliseconds. Nothing changes where memory is wanted.
    pub(crate) fn file(
        &mut self,
        alloc: Global,
        net: Option<AnyNet>,
        rule: &Rule,
        moment: u64,
    ) -> Result<(), AllocError>
        ensures ok { OnOk result ((net_of : Flow → Option AnyNet) (rules : List Rule) → net_of rule.now.flow ≡ net
            → IsSide net_of rules self.old → IsRising rules → is_held rule.now.number rules ≡ false
            → IsSide net_of (place rule.now rules) self.new) }
        ensures err { OnErr result ((net_of : Flow → Option AnyNet) (rules : List Rule)
            → IsSide net_of rules self.old → IsSide net_of rules self.new) }
    {
        match net {
            Some(net) => match self.index.add(alloc, net, rule.number) {
                Ok(alone) => {
                    self.quick.file(alloc, &net, rule, alone, moment);
                    self.quick6.file(alloc, &net, rule, alone, moment);
                    self.blocks.note(&net);
                    self.lists.file(alloc, &net, rule, alone, moment);
                    Ok(())
                }
                Err(error) => Err(error),
            },
            None => Ok(()),
        }
    }

    /// Takes a rule from under its net, if it has one. It takes no memory.
    pub(crate) fn unfile(&mut self, net: Option<AnyNet>, rule: &Rule)
        ensures { (net_of : Flow → Option AnyNet) (rules : List Rule) → net_of rule.now.flow ≡ net
            → IsSide net_of rules self.old → IsRising rules → rule_at rule.now.number rules ≡ Some rule.now
            → IsSide net_of (without rule.now.number rules) self.new }
    {
        match net {
            Some(net) => {
                self.index.remove(&net, rule.number);
                self.quick.unfile(&net);
                self.quick6.unfile(&net);
                self.lists.unfile(&net);
            }
            None => (),
        }
    }
}
