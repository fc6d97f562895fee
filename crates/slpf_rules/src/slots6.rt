// Rules that stand alone under an IPv6 net, in the few bytes that a decision reads.
ghost use Rattle.std.specs.Prelude.{◌≡◌};
ghost use Rattle.slpf_rules.specs.Slots6.{is_free6, is_of6, slot_of6, free_slot6, said_by6};

use crate::rules::Rule;
use crate::verdicts::{Verdict, has_direction};
use oc2_msg::Direction;
use oc2_nets::Net6;

/// A place for what a decision reads of a rule, to be known by the bits and the width of the rule's net.
#[derive(Clone, Copy)]
pub(crate) struct Slot6 {
    pub(crate) bits: u128,
    pub(crate) number: u32,
    pub(crate) width: u8,
    pub(crate) deny: bool,
    /// None where the place is free.
    pub(crate) direction: Option<Direction>,
}

impl Slot6 {
    /// A free place.
    pub(crate) fn free() -> Slot6
        ensures { result ≡ free_slot6 }
    {
        Slot6 {
            bits: 0,
            number: 0,
            width: 0,
            deny: false,
            direction: None,
        }
    }

    /// The place of a rule under a net.
    pub(crate) fn of(net: &Net6, rule: &Rule) -> Slot6
        ensures { result ≡ slot_of6 net.now rule.now }
    {
        Slot6 {
            bits: net.bits,
            number: rule.number,
            width: net.width,
            deny: rule.deny,
            direction: Some(rule.direction),
        }
    }

    /// Whether the place is free.
    pub(crate) fn is_free(&self) -> bool
        ensures { result ≡ is_free6 self.now }
    {
        self.direction.is_none()
    }

    /// Whether the bits and the width are those of a net.
    pub(crate) fn is_of(&self, net: &Net6) -> bool
        ensures { result ≡ is_of6 net.now self.now }
    {
        self.bits == net.bits && self.width == net.width
    }

    /// What the rule says of a packet that goes out, or comes in, if it has that direction.
    pub(crate) fn said(&self, outward: bool) -> Option<Verdict>
        ensures { result ≡ said_by6 self.now outward }
    {
        match self.direction {
            Some(direction) => {
                if has_direction(direction, outward) {
                    Some(Verdict {
                        deny: self.deny,
                        rule: self.number,
                    })
                } else {
                    None
                }
            }
            None => None,
        }
    }
}
