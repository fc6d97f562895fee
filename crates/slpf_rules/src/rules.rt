// Rules, and their list.
ghost use Rattle.std.specs.Prelude.{◌≡◌, ◌==◌, false, [], length, OnOk, OnErr};
ghost use Rattle.std.specs.Option.{option_copied};
ghost use Rattle.std.specs.Map.Iter.{ShowsInOrder, deref};
ghost use Rattle.slpf_rules.specs.declared.rules.Rule.{Rule};
ghost use Rattle.slpf_rules.specs.Rules.{rule_at, is_held, greatest, place, without};
ghost use Rattle.slpf_rules.specs.Order.{IsRising};

use oc2_msg::{Direction, Drop3};
use oc2_nets::Flow;
use std::alloc::{AllocError, Global};
use std::collections::btree_map::Values;
use std::collections::{BTreeMap, HashMap};
use std::marker::Model;

/// A rule of a packet filter (OpenC2 SLPF 1.0, section 2.3). Moments are in milliseconds.
#[derive(Clone, Copy, PartialEq, Eq)]
pub struct Rule {
    pub number: u32,
    pub deny: bool,
    pub direction: Direction,
    pub flow: Flow,
    pub drop: Drop3,
    /// The first moment at which the rule is in force.
    pub start: u64,
    /// The moment at which it no longer is, if there is one.
    pub stop: Option<u64>,
}

/// The rules of a table, in order of number. Beside them it keeps a copy of each rule where its number finds it at once.
#[derive(Drop)]
pub struct Rules {
    by_number: BTreeMap<u32, Rule>,
    found: HashMap<u32, Rule>,
}

impl Model for Rules {
    ghost use Rattle.std.specs.Prelude.{List};
    ghost use Rattle.slpf_rules.specs.declared.rules.Rule.{Rule};

    ghost Value = { List Rule };

    ghost use Rattle.std.specs.BTreeMap.{values};
    ghost use Rattle.slpf_rules.specs.Found.{IsRules};

    ghost view = { λ rules. values rules.by_number };

    ghost invariant = { λ rules. IsRules rules.found rules.by_number.entries };
}

impl Rules {
    /// No rule. Takes no memory.
    pub(crate) fn new(alloc: Global) -> Rules
        ensures { result ≡ [] }
    {
        Rules {
            by_number: BTreeMap::new(alloc),
            found: HashMap::new(alloc),
        }
    }

    /// How many rules there are.
    pub fn len(&self) -> usize
        ensures value { result ≡ length self.now }
        ensures rising { IsRising self.now }
    {
        self.by_number.len()
    }

    /// Whether there is none.
    pub fn is_empty(&self) -> bool
        ensures { result ≡ (length self.now == 0) }
    {
        self.by_number.len() == 0
    }

    /// The rule of this number, if it is held.
    pub fn find(&self, number: u32) -> Option<&Rule>
        ensures { option_copied result ≡ rule_at number self.now }
    {
        self.found.get(&number)
    }

    /// Whether a rule has this number.
    pub fn holds(&self, number: u32) -> bool
        ensures { result ≡ is_held number self.now }
    {
        self.by_number.contains_key(&number)
    }

    /// The rules, in order of number. It takes no memory.
    pub fn iter(&self) -> Values<'_, u32, Rule>
        ensures rest { result ≡ self.now }
        ensures runs { ShowsInOrder (deref {X = Rule}) }
    {
        self.by_number.values()
    }

    /// The greatest number that is held, 0 where there is no rule.
    pub fn greatest(&self) -> u32
        ensures { result ≡ greatest self.now }
    {
        match self.by_number.last_key_value() {
            Some((number, _)) => *number,
            None => 0,
        }
    }

    /// Puts a rule at its place. The list is unchanged where memory is wanted.
    pub(crate) fn insert(&mut self, rule: Rule) -> Result<(), AllocError>
        requires { is_held rule.number self.old ≡ false }
        ensures ok { OnOk result (self.new ≡ place rule self.old) }
        ensures err { OnErr result (self.new ≡ self.old) }
    {
        self.found.insert(rule.number, rule)?;
        match self.by_number.insert(rule.number, rule) {
            Ok(_) => Ok(()),
            Err(_) => {
                self.found.remove(&rule.number);
                Err(AllocError)
            }
        }
    }

    /// Takes the rule of this number out, if it is held.
    pub(crate) fn remove(&mut self, number: u32)
        ensures { self.new ≡ without number self.old }
    {
        self.by_number.remove(&number);
        self.found.remove(&number);
    }

    /// Takes every rule out.
    pub(crate) fn clear(&mut self)
        ensures { self.new ≡ [] }
    {
        self.by_number.clear();
        self.found.clear();
    }
}
