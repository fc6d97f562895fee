// Lists of what a decision compares of the rules of a net.
ghost use Rattle.std.specs.Prelude.{◌≡◌, ◌==◌, ◌++◌, ◌∷◌, ◌⊎◌, ℕ, List, [], Option, Some, None, true, nat_eq, filter, IfOk, IfSome, if◌then◌else◌};
ghost use Rattle.std.specs.Bool.{OnTrue};
ghost use Rattle.std.specs.HashMap.{get};
ghost use Rattle.std.specs.Option.{option_map};
ghost use Rattle.oc2_nets.specs.declared.flows.Flow.{Flow};
ghost use Rattle.slpf_rules.specs.declared.any_nets.AnyNet.{AnyNet};
ghost use Rattle.slpf_rules.specs.declared.any_nets.AnyNet.TheVariants.{V4};
ghost use Rattle.slpf_rules.specs.declared.briefs.Brief.{Brief};
ghost use Rattle.slpf_rules.specs.declared.rules.Rule.{Rule};
ghost use Rattle.slpf_rules.specs.Filed.{is_net};
ghost use Rattle.slpf_rules.specs.Order.{IsRising};
ghost use Rattle.slpf_rules.specs.Rules.{place, without, rule_at};
ghost use Rattle.slpf_rules.specs.Soles.{key4};
ghost use Rattle.slpf_rules.specs.Briefs.{EndsBelow, Grown, AreListed};

use crate::any_nets::AnyNet;
use crate::briefs::Brief;
use crate::quick::is_lasting;
use crate::rules::Rule;
use crate::soles::key4;
use oc2_nets::Net4;
use std::alloc::{AllocError, Global};
use std::collections::HashMap;

/// How many rules a list has at the most.
const MOST: usize = 4_096;

/// Of IPv4 nets, what a decision compares of the rules there, in order of number. A list is true where there is one; a net that
/// has none may have any rules.
#[derive(Drop)]
pub(crate) struct Lists {
    by_key: HashMap<u64, Vec<Brief>>,
}

/// Whether the last number of a list, if it has one, is below this one.
fn ends_below(list: &Vec<Brief>, number: u32) -> bool
    ensures { OnTrue result (EndsBelow list.now.items number) }
{
    match list.last() {
        Some(brief) => brief.number < number,
        None => true,
    }
}

/// Whether a list begins with a rule: it is alone, and no table of nets tells of it.
fn begins(rule: &Rule, alone: bool, moment: u64) -> bool
    ensures { OnTrue result (alone ≡ true) }
{
    alone && !is_lasting(rule, moment)
}

/// A list of one rule.
fn started(alloc: Global, brief: Brief) -> Result<Vec<Brief>, AllocError>
    ensures { IfOk result (λ list. list.items ≡ brief ∷ []) }
{
    let mut list = Vec::with_capacity(alloc, 1)?;
    list.push(brief)?;
    Ok(list)
}

/// A list with one rule more, if it may have one: the rule's number is above all others.
fn longer(list: Vec<Brief>, brief: Brief) -> Result<Option<Vec<Brief>>, AllocError>
    ensures { IfOk result (λ found. IfSome found (λ longer. (longer.items ≡ list.items ++ brief ∷ []) × EndsBelow list.items brief.number)) }
{
    if list.len() >= MOST || !ends_below(&list, brief.number) {
        return Ok(None);
    }
    let mut longer = list;
    longer.push(brief)?;
    Ok(Some(longer))
}

/// A list with one rule more, if there may be one.
fn with_brief(
    alloc: Global,
    before: Option<Vec<Brief>>,
    alone: bool,
    brief: Brief,
) -> Option<Vec<Brief>>
    ensures { IfSome result (λ list. Grown (option_map (λ old. old.items) before) alone brief list.items) }
{
    match before {
        Some(list) => match longer(list, brief) {
            Ok(found) => found,
            Err(_) => None,
        },
        None => {
            if !alone {
                return None;
            }
            match started(alloc, brief) {
                Ok(list) => Some(list),
                Err(_) => None,
            }
        }
    }
}

impl Lists {
    /// No list. Takes no memory.
    pub(crate) fn new(alloc: Global) -> Lists
        ensures { (key : ℕ) → get nat_eq result.by_key key ≡ None }
    {
        Lists {
            by_key: HashMap::new(alloc),
        }
    }

    /// The list of a net.
    pub(crate) fn get(&self, net: &Net4) -> Option<&Vec<Brief>>
        ensures { IfSome result (λ list. get nat_eq self.now.by_key (key4 net.now) ≡ Some list.now) }
    {
        self.by_key.get(&key4(*net))
    }

    /// Takes the list of a net out.
    fn take(&mut self, key: u64) -> Option<Vec<Brief>>
        ensures taken { result ≡ get nat_eq self.old.by_key key }
        ensures left { (other : ℕ) → get nat_eq self.new.by_key other
            ≡ (if key == other then None else get nat_eq self.old.by_key other) }
    {
        self.by_key.remove(&key)
    }

    /// Puts a list of a net in, if there is memory.
    fn put(&mut self, key: u64, list: Vec<Brief>)
        ensures { (other : ℕ) → (get nat_eq self.new.by_key other ≡ get nat_eq self.old.by_key other)
            ⊎ (get nat_eq self.new.by_key other ≡ (if key == other then Some list else get nat_eq self.old.by_key other)) }
    {
        match self.by_key.insert(key, list) {
            Ok(_) => (),
            Err(_) => (),
        }
    }

    /// Notes that a rule was filed under an IPv4 net.
    fn file4(&mut self, alloc: Global, net: &Net4, rule: &Rule, alone: bool)
        ensures { (net_of : Flow → Option AnyNet) (rules : List Rule) → net_of rule.now.flow ≡ Some (V4 net.now)
            → AreListed net_of rules self.old → IsRising rules
            → (alone ≡ true → filter (λ other. is_net (V4 net.now) (net_of other.flow)) rules ≡ [])
            → AreListed net_of (place rule.now rules) self.new }
    {
        let key = key4(*net);
        let before = self.take(key);
        let Some(brief) = Brief::of(rule) else {
            return;
        };
        let Some(list) = with_brief(alloc, before, alone, brief) else {
            return;
        };
        self.put(key, list);
    }

    /// Notes that a rule was filed under a net at a moment, in milliseconds, and whether it is alone there.
    pub(crate) fn file(
        &mut self,
        alloc: Global,
        net: &AnyNet,
        rule: &Rule,
        alone: bool,
        moment: u64,
    )
        ensures { (net_of : Flow → Option AnyNet) (rules : List Rule) → net_of rule.now.flow ≡ Some net.now
            → AreListed net_of rules self.old → IsRising rules
            → (alone ≡ true → filter (λ other. is_net net.now (net_of other.flow)) rules ≡ [])
            → AreListed net_of (place rule.now rules) self.new }
    {
        match net {
            AnyNet::V4(net) => self.file4(alloc, net, rule, begins(rule, alone, moment)),
            AnyNet::V6(_) => (),
        }
    }

    /// Notes that a rule was taken from under a net.
    pub(crate) fn unfile(&mut self, net: &AnyNet)
        ensures { (net_of : Flow → Option AnyNet) (rules : List Rule) (rule : Rule) → net_of rule.flow ≡ Some net.now
            → AreListed net_of rules self.old → IsRising rules → rule_at rule.number rules ≡ Some rule
            → AreListed net_of (without rule.number rules) self.new }
    {
        match net {
            AnyNet::V4(net) => {
                self.take(key4(*net));
            }
            AnyNet::V6(_) => (),
        }
    }
}
