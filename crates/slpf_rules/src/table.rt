// The rule table.
ghost use Rattle.std.specs.Prelude.{◌≡◌, ◌<◌, ◌≤◌, false, [], length, OnOk, OnErr};
ghost use Rattle.std.specs.Bool.{OnFalse};
ghost use Rattle.std.specs.BTreeMap.{get};
ghost use Rattle.slpf_rules.specs.declared.any_nets.AnyNet.{AnyNet};
ghost use Rattle.slpf_rules.specs.AnyNets.{net_cmp};
ghost use Rattle.slpf_rules.specs.Rules.{is_held, place, without};
ghost use Rattle.slpf_rules.specs.Order.{IsRising};
ghost use Rattle.slpf_rules.specs.Filed.{by_source, by_destination, unfiled};
ghost use Rattle.slpf_rules.specs.Verdicts.{verdict};

use crate::any_nets::AnyNet;
use crate::deciding::{Query, earlier, first_of, least, picked, said_or_allowed};
use crate::filing::Filing;
use crate::numbers::Numbers;
use crate::rules::{Rule, Rules};
use crate::verdicts::Verdict;
use oc2_nets::Packet;
use std::alloc::{AllocError, Global};
use std::collections::BTreeMap;
use std::marker::Model;

/// The rules of a packet filter (OpenC2 SLPF 1.0, section 2), seen as their list in order of number.
///
/// Beside the rules it files their numbers by net: `by_source`, `by_destination` and `unfiled` tell where.
pub struct Table {
    alloc: Global,
    rules: Rules,
    filing: Filing,
}

// (by hand, and not by derive: so a drop is one call in the proofs of all who own one)
impl Drop for Table {
    fn drop(self) {
        let Self {
            alloc: _,
            rules: _,
            filing: _,
        } = self;
    }
}

impl Model for Table {
    ghost use Rattle.std.specs.Prelude.{List};
    ghost use Rattle.slpf_rules.specs.declared.rules.Rule.{Rule};

    ghost Value = { List Rule };

    ghost use Rattle.slpf_rules.specs.TableFacts.{IsTable};

    ghost view = { λ table. table.rules };

    ghost invariant = { λ table. IsTable table.rules table.filing };
}

impl Table {
    /// A table with no rule. Takes no memory.
    pub fn new(alloc: Global) -> Table
        ensures { result ≡ [] }
    {
        Table {
            alloc,
            rules: Rules::new(alloc),
            filing: Filing::new(alloc),
        }
    }

    /// The rules, in order of number. It takes no memory.
    pub fn rules(&self) -> &Rules
        ensures value { result.now ≡ self.now }
        ensures rising { IsRising self.now }
        ensures few { length self.now ≤ 65_536 }
    {
        prove!(self.rules.len() <= 65_536);
        &self.rules
    }

    /// The numbers of the rules by source net: those of kind `net4` or `net6` under their net, and connections with
    /// a source net under that. It takes no memory.
    pub fn by_source(&self) -> &BTreeMap<AnyNet, Numbers>
        ensures { (net : AnyNet) → get net_cmp result.now net ≡ by_source self.now net }
    {
        self.filing.sources.index.nets()
    }

    /// The numbers of the rules by destination net: those of kind `net4` or `net6` under their net, and connections
    /// with a destination net and no source net under that. It takes no memory.
    pub fn by_destination(&self) -> &BTreeMap<AnyNet, Numbers>
        ensures { (net : AnyNet) → get net_cmp result.now net ≡ by_destination self.now net }
    {
        self.filing.destinations.index.nets()
    }

    /// The numbers of the rules with neither net. It takes no memory.
    pub fn unfiled(&self) -> &Numbers
        ensures { result.now ≡ unfiled self.now }
    {
        &self.filing.unfiled
    }

    /// What the filter does with a packet at a moment, in milliseconds: what the least-numbered rule in force says
    /// that covers the packet and has its direction. A packet without a rule is allowed. It takes no memory.
    pub fn decide(&self, packet: &Packet, moment: u64) -> Verdict
        ensures { result ≡ verdict self.now packet.now moment }
    {
        let query = Query {
            rules: &self.rules,
            packet,
            moment,
        };
        let unfiled = picked(&self.rules, first_of(&self.filing.unfiled, &query));
        let source = least(&self.filing.sources, packet.from, &query);
        let destination = least(&self.filing.destinations, packet.to, &query);
        said_or_allowed(earlier(unfiled, earlier(source, destination)))
    }

    pub(crate) fn allocator(&self) -> Global {
        self.alloc
    }

    /// Adds a rule at a moment, in milliseconds. Nothing changes where memory is wanted.
    pub(crate) fn add(&mut self, rule: Rule, moment: u64) -> Result<(), AllocError>
        requires free { is_held rule.number self.old ≡ false }
        requires room { length self.old < 65_536 }
        ensures ok { OnOk result (self.new ≡ place rule self.old) }
        ensures err { OnErr result (self.new ≡ self.old) }
    {
        self.filing.file(self.alloc, &rule, moment)?;
        match self.rules.insert(rule) {
            Ok(()) => Ok(()),
            Err(error) => {
                self.filing.unfile(&rule);
                Err(error)
            }
        }
    }

    /// Takes the rule of this number out; false where it is not held.
    pub(crate) fn delete(&mut self, number: u32) -> bool
        ensures value { result ≡ is_held number self.old }
        ensures rules { self.new ≡ without number self.old }
        ensures absent { OnFalse result (self.new ≡ self.old) }
    {
        let Some(rule) = self.rules.find(number) else {
            return false;
        };
        let rule = *rule;
        self.filing.unfile(&rule);
        self.rules.remove(number);
        true
    }

    /// Takes every rule out.
    pub(crate) fn clear(&mut self)
        ensures { self.new ≡ [] }
    {
        self.rules.clear();
        self.filing = Filing::new(self.alloc);
    }
}
