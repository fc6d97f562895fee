// What a decision compares of a rule.
ghost use Rattle.std.specs.Prelude.{◌≡◌, IfSome};
ghost use Rattle.slpf_rules.specs.Briefs.{IsBrief, brief_decides};

use crate::flows4::Flow4;
use crate::rules::Rule;
use crate::verdicts::{Verdict, has_direction, is_before_stop};
use oc2_msg::Direction;
use oc2_nets::{Packet, covers};

/// What a decision compares of a rule of IPv4 addresses, and what the rule says. Moments are in milliseconds.
#[derive(Clone, Copy)]
pub(crate) struct Brief {
    pub(crate) start: u64,
    pub(crate) stop: Option<u64>,
    pub(crate) flow: Flow4,
    pub(crate) number: u32,
    pub(crate) deny: bool,
    pub(crate) direction: Direction,
}

impl Brief {
    /// That of a rule, if it is one of IPv4 addresses.
    pub(crate) fn of(rule: &Rule) -> Option<Brief>
        ensures { IfSome result (λ brief. IsBrief brief rule.now) }
    {
        let Some(flow) = Flow4::of(&rule.flow) else {
            return None;
        };
        Some(Brief {
            start: rule.start,
            stop: rule.stop,
            flow,
            number: rule.number,
            deny: rule.deny,
            direction: rule.direction,
        })
    }

    /// Whether the rule is in force, has the packet's direction, and covers it.
    pub(crate) fn decides(&self, packet: &Packet, moment: u64) -> bool
        ensures { result ≡ brief_decides packet.now moment self.now }
    {
        self.start <= moment
            && is_before_stop(moment, self.stop)
            && has_direction(self.direction, packet.outward)
            && covers(&self.flow.flow(), packet)
    }

    /// What the rule says.
    pub(crate) fn verdict(&self) -> Verdict
        ensures { result ≡ record { deny = self.now.deny; rule = self.now.number } }
    {
        Verdict {
            deny: self.deny,
            rule: self.number,
        }
    }
}
