// Which rules decide a packet.
ghost use Rattle.std.specs.Prelude.{◌≡◌};
ghost use Rattle.std.specs.Option.{option_copied};
ghost use Rattle.slpf_rules.specs.Verdicts.{has_direction, is_before_stop, is_in_force, decides};

use crate::rules::Rule;
use oc2_msg::Direction;
use oc2_nets::{Packet, covers};

/// What a filter does with a packet.
#[derive(Clone, Copy, PartialEq, Eq)]
pub struct Verdict {
    pub deny: bool,
    /// The number of the rule that decided, 0 where there is none.
    pub rule: u32,
}

impl Verdict {
    ghost use Rattle.slpf_rules.specs.Verdicts.{verdict_of};

    /// What a rule says; without one a packet is allowed.
    pub(crate) fn of(rule: Option<&Rule>) -> Verdict
        ensures { result ≡ verdict_of (option_copied rule.entry) }
    {
        match rule {
            Some(rule) => Verdict {
                deny: rule.deny,
                rule: rule.number,
            },
            None => Verdict {
                deny: false,
                rule: 0,
            },
        }
    }
}

pub(crate) fn has_direction(direction: Direction, outward: bool) -> bool
    ensures { result ≡ has_direction direction outward }
{
    match direction {
        Direction::Both => true,
        Direction::Ingress => !outward,
        Direction::Egress => outward,
    }
}

pub(crate) fn is_before_stop(moment: u64, stop: Option<u64>) -> bool
    ensures { result ≡ is_before_stop moment stop }
{
    match stop {
        Some(stop) => moment < stop,
        None => true,
    }
}

fn is_in_force(rule: &Rule, moment: u64) -> bool
    ensures { result ≡ is_in_force moment rule.now }
{
    rule.start <= moment && is_before_stop(moment, rule.stop)
}

/// Whether a rule is in force, has the packet's direction, and covers it. Moments are in milliseconds.
pub(crate) fn decides(rule: &Rule, packet: &Packet, moment: u64) -> bool
    ensures { result ≡ decides packet.now moment rule.now }
{
    is_in_force(rule, moment)
        && has_direction(rule.direction, packet.outward)
        && covers(&rule.flow, packet)
}
