// A table of rules that stand alone under an IPv6 net.
ghost use Rattle.std.specs.Prelude.{◌≡◌, ◌+◌, ◌<◌, ◌≤◌, ◌^◌, ◌⊎◌, ℕ, List, Option, Some, [], true, false, IfOk, IfSome, filter, slice_get};
ghost use Rattle.oc2_nets.specs.declared.flows.Flow.{Flow};
ghost use Rattle.slpf_rules.specs.declared.any_nets.AnyNet.{AnyNet};
ghost use Rattle.slpf_rules.specs.declared.any_nets.AnyNet.TheVariants.{V6};
ghost use Rattle.slpf_rules.specs.declared.rules.Rule.{Rule};
ghost use Rattle.slpf_rules.specs.declared.slots6.Slot6.{Slot6};
ghost use Rattle.slpf_rules.specs.Filed.{is_net};
ghost use Rattle.slpf_rules.specs.Order.{IsRising};
ghost use Rattle.slpf_rules.specs.Rules.{place, without, rule_at};
ghost use Rattle.slpf_rules.specs.Slots6.{is_free6, is_of6};
ghost use Rattle.slpf_rules.specs.Quick6.{folded, home6, is_near6, Keeps6, Adds6, Reads6, AreAlone6};

use crate::any_nets::AnyNet;
use crate::quick::{FEWEST_BITS, MOST_BITS, NEAR, home, is_lasting};
use crate::rules::Rule;
use crate::slots6::Slot6;
use oc2_nets::Net6;
use std::alloc::{AllocError, Global};

/// Rules of nets, each alone under its net and without an end. What stands near the home of a net holds of it; where nothing of
/// it stands there, nothing is known. So a decision reads one or two lines of the processor's cache for most nets.
#[derive(Drop)]
pub(crate) struct Quick6 {
    slots: Vec<Slot6>,
    /// How many of the 32 bits that are mixed of a net do not tell its home.
    shift: u8,
    /// The rules are in force from this moment on, in milliseconds.
    since: u64,
    /// How many places are taken.
    taken: usize,
}

/// Each half modulo the greatest prime of 32 bits, added up.
fn folded(bits: u128) -> u32
    ensures { result ≡ folded bits }
{
    let high = (bits >> 64) as u64 % 4_294_967_291;
    let low = (bits % (1 << 64)) as u64 % 4_294_967_291;
    ((high + low) % 0x1_0000_0000) as u32
}

/// The first place at which a net may stand.
fn home6(shift: u8, bits: u128, width: u8) -> usize
    ensures value { result ≡ home6 shift bits width }
    ensures fits { result < 2 ^ 32 }
{
    home(shift, folded(bits), width)
}

/// Whether a place is one at which its net may stand.
fn is_near(shift: u8, at: usize, slot: &Slot6) -> bool
    ensures { result ≡ is_near6 shift at slot.now }
{
    let home = home6(shift, slot.bits, slot.width);
    home <= at && at < home + NEAR
}

/// Frees a place if it is of this net; true where it was taken.
fn free_at(slots: &mut Vec<Slot6>, at: usize, net: &Net6) -> bool
    ensures kept { Keeps6 slots.old.items slots.new.items }
    ensures freed { (slot : Slot6) → slice_get slots.new.items at ≡ Some slot → is_free6 slot ≡ false → is_of6 net.now slot ≡ false }
{
    if at >= slots.len() {
        return false;
    }
    let slot = slots[at];
    if slot.is_free() || !slot.is_of(net) {
        return false;
    }
    slots[at] = Slot6::free();
    true
}

/// Frees each place near a home that is of this net. How many were taken.
fn free_near(slots: &mut Vec<Slot6>, home: usize, net: &Net6) -> usize
    requires { home < 2 ^ 32 }
    ensures kept { Keeps6 slots.old.items slots.new.items }
    ensures freed { (at : ℕ) (slot : Slot6) → home ≤ at → at < home + 8 → slice_get slots.new.items at ≡ Some slot
        → is_free6 slot ≡ false → is_of6 net.now slot ≡ false }
{
    let mut freed: usize = 0;
    for at in home..home + NEAR {
        if free_at(slots, at, net) {
            freed = freed.saturating_add(1);
        }
    }
    freed
}

/// Takes a place if it is free; false where it is not.
fn take_at(slots: &mut Vec<Slot6>, at: usize, slot: Slot6) -> bool
    ensures { Adds6 slots.old.items slots.new.items slot }
{
    if at >= slots.len() || !slots[at].is_free() {
        return false;
    }
    slots[at] = slot;
    true
}

/// Takes the first free place near a home; false where there is none.
fn take_near(slots: &mut Vec<Slot6>, home: usize, slot: Slot6) -> bool
    requires { home < 2 ^ 32 }
    ensures { Adds6 slots.old.items slots.new.items slot }
{
    for at in home..home + NEAR {
        if take_at(slots, at, slot) {
            return true;
        }
    }
    false
}

/// So many free places.
fn free_slots(alloc: Global, count: usize) -> Result<Vec<Slot6>, AllocError>
    ensures { IfOk result (λ slots. (at : ℕ) (slot : Slot6) → slice_get slots.items at ≡ Some slot → is_free6 slot ≡ true) }
{
    vec![in alloc; Slot6::free(); count]
}

impl Quick6 {
    /// No place. Takes no memory.
    pub(crate) fn new(alloc: Global) -> Quick6
        ensures { (slot : Slot6) → Reads6 result slot → ⊥ }
    {
        Quick6 {
            slots: Vec::new(alloc),
            shift: 32,
            since: 0,
            taken: 0,
        }
    }

    /// Free places for homes of so many bits.
    fn with_bits(alloc: Global, bits: u8, since: u64) -> Result<Quick6, AllocError>
        ensures blank { IfOk result (λ quick. (slot : Slot6) → Reads6 quick slot → ⊥) }
        ensures since { IfOk result (λ quick. quick.since ≡ since) }
    {
        let bits = bits.min(MOST_BITS);
        let slots = free_slots(alloc, (1_usize << bits).saturating_add(NEAR))?;
        Ok(Quick6 {
            slots,
            shift: 32 - bits,
            since,
            taken: 0,
        })
    }

    /// The rule that stands alone under a net, if it is known and in force at a moment, in milliseconds.
    pub(crate) fn find(&self, net: &Net6, moment: u64) -> Option<Slot6>
        ensures read { IfSome result (λ slot. Reads6 self.now slot) }
        ensures of { IfSome result (λ slot. is_of6 net.now slot ≡ true) }
        ensures begun { IfSome result (λ slot. self.now.since ≤ moment) }
    {
        if moment < self.since {
            return None;
        }
        let home = home6(self.shift, net.bits, net.width);
        for at in home..home + NEAR {
            let Some(slot) = self.slots.get(at) else {
                return None;
            };
            if slot.is_free() {
                return None;
            }
            if slot.is_of(net) {
                return Some(*slot);
            }
        }
        None
    }

    /// Forgets what is known of a net.
    fn forget(&mut self, net: &Net6)
        ensures kept { (slot : Slot6) → Reads6 self.new slot → Reads6 self.old slot }
        ensures gone { (slot : Slot6) → Reads6 self.new slot → is_of6 net.now slot ≡ false }
        ensures since { self.new.since ≡ self.old.since }
    {
        let home = home6(self.shift, net.bits, net.width);
        let freed = free_near(&mut self.slots, home, net);
        self.taken = self.taken.saturating_sub(freed);
    }

    /// Puts a rule at a free place, if there is one near the net's home.
    fn put(&mut self, slot: Slot6)
        ensures added { (other : Slot6) → Reads6 self.new other → Reads6 self.old other ⊎ (other ≡ slot) }
        ensures since { self.new.since ≡ self.old.since }
    {
        let home = home6(self.shift, slot.bits, slot.width);
        let taken = take_near(&mut self.slots, home, slot);
        self.taken = self.taken.saturating_add(taken as usize);
    }

    /// What stands at a place, if it is read there.
    fn stands_at(&self, at: usize) -> Option<Slot6>
        ensures { IfSome result (λ slot. Reads6 self.now slot) }
    {
        let Some(slot) = self.slots.get(at) else {
            return None;
        };
        if slot.is_free() || !is_near(self.shift, at, slot) {
            return None;
        }
        Some(*slot)
    }

    /// Puts what stands at a place into another table.
    fn hand_on(&self, at: usize, other: &mut Quick6)
        ensures added { (slot : Slot6) → Reads6 other.new slot → Reads6 other.old slot ⊎ Reads6 self.now slot }
        ensures since { other.new.since ≡ other.old.since }
    {
        let Some(slot) = self.stands_at(at) else {
            return;
        };
        other.put(slot);
    }

    /// The same rules, with homes of one bit more.
    fn wider(&self, alloc: Global) -> Result<Quick6, AllocError>
        ensures kept { IfOk result (λ wider. (slot : Slot6) → Reads6 wider slot → Reads6 self.now slot) }
        ensures since { IfOk result (λ wider. wider.since ≡ self.now.since) }
    {
        let bits = (33 - self.shift.min(32)).max(FEWEST_BITS);
        let mut wider = Quick6::with_bits(alloc, bits, self.since)?;
        for at in 0..self.slots.len() {
            self.hand_on(at, &mut wider);
        }
        Ok(wider)
    }

    /// Makes room where half of the places are taken, if there is memory.
    fn make_room(&mut self, alloc: Global)
        ensures kept { (slot : Slot6) → Reads6 self.new slot → Reads6 self.old slot }
        ensures since { self.new.since ≡ self.old.since }
    {
        if self.taken < self.slots.len() / 2 || self.shift <= 32 - MOST_BITS {
            return;
        }
        match self.wider(alloc) {
            Ok(wider) => *self = wider,
            Err(_) => (),
        }
    }

    /// Notes that a rule was filed under an IPv6 net.
    fn file6(&mut self, alloc: Global, net: &Net6, rule: &Rule, alone: bool, moment: u64)
        ensures { (net_of : Flow → Option AnyNet) (rules : List Rule) → net_of rule.now.flow ≡ Some (V6 net.now)
            → AreAlone6 net_of rules self.old → IsRising rules
            → (alone ≡ true → filter (λ other. is_net (V6 net.now) (net_of other.flow)) rules ≡ [])
            → AreAlone6 net_of (place rule.now rules) self.new }
    {
        self.forget(net);
        if !alone {
            return;
        }
        if !is_lasting(rule, moment) {
            return;
        }
        self.make_room(alloc);
        self.since = self.since.max(rule.start);
        self.put(Slot6::of(net, rule));
    }

    /// Notes that a rule was filed under a net at a moment, in milliseconds, and whether it is alone there.
    pub(crate) fn file(
        &mut self,
        alloc: Global,
        net: &AnyNet,
        rule: &Rule,
        alone: bool,
        moment: u64,
    )
        ensures { (net_of : Flow → Option AnyNet) (rules : List Rule) → net_of rule.now.flow ≡ Some net.now
            → AreAlone6 net_of rules self.old → IsRising rules
            → (alone ≡ true → filter (λ other. is_net net.now (net_of other.flow)) rules ≡ [])
            → AreAlone6 net_of (place rule.now rules) self.new }
    {
        match net {
            AnyNet::V6(net) => self.file6(alloc, net, rule, alone, moment),
            AnyNet::V4(_) => (),
        }
    }

    /// Notes that a rule was taken from under a net.
    pub(crate) fn unfile(&mut self, net: &AnyNet)
        ensures { (net_of : Flow → Option AnyNet) (rules : List Rule) (rule : Rule) → net_of rule.flow ≡ Some net.now
            → AreAlone6 net_of rules self.old → IsRising rules → rule_at rule.number rules ≡ Some rule
            → AreAlone6 net_of (without rule.number rules) self.new }
    {
        match net {
            AnyNet::V6(net) => self.forget(net),
            AnyNet::V4(_) => (),
        }
    }
}
