// What the rule of the least number says, among those that decide and that an index files round an address.
ghost use Rattle.std.specs.Prelude.{◌≡◌, ◌+◌, ◌*◌, ◌<◌, ◌≤◌, Option, Some, [], find, unwrap_or};
ghost use Rattle.oc2_nets.specs.declared.flows.Flow.{Flow};
ghost use Rattle.oc2_nets.specs.declared.packets.Address.TheVariants as kind;
ghost use Rattle.slpf_rules.specs.declared.any_nets.AnyNet.{AnyNet};
ghost use Rattle.slpf_rules.specs.IndexEntries.{at};
ghost use Rattle.slpf_rules.specs.Order.{IsRising};
ghost use Rattle.slpf_rules.specs.Soles.{IsSole};
ghost use Rattle.slpf_rules.specs.Briefs.{brief_decides, said_of};
ghost use Rattle.slpf_rules.specs.Filing.{IsSide};
ghost use Rattle.slpf_rules.specs.Deciding.{smallest, number_decides, decides_in, decides_below};
ghost use Rattle.slpf_rules.specs.Picking.{earlier, picked, said_or_allowed, NetsCover};

use crate::any_nets::AnyNet;
use crate::briefs::Brief;
use crate::index::Index;
use crate::numbers::Numbers;
use crate::rules::Rules;
use crate::sides::Side;
use crate::verdicts::{Verdict, decides};
use oc2_nets::{Address, Net4, Net6, Packet};

/// The verdict of the lesser number, where there are two.
pub(crate) fn earlier(a: Option<Verdict>, b: Option<Verdict>) -> Option<Verdict>
    ensures { result ≡ earlier a b }
{
    match (a, b) {
        (None, other) => other,
        (Some(a), None) => Some(a),
        (Some(a), Some(b)) => { if b.rule < a.rule { Some(b) } else { Some(a) } }
    }
}

/// What was found; without it a packet is allowed.
pub(crate) fn said_or_allowed(found: Option<Verdict>) -> Verdict
    ensures { result ≡ said_or_allowed found }
{
    match found {
        Some(verdict) => verdict,
        None => Verdict::of(None),
    }
}

/// What the rule of a number says, where there is a number.
pub(crate) fn picked(rules: &Rules, number: Option<u32>) -> Option<Verdict>
    ensures { result ≡ picked rules.now number }
{
    match number {
        Some(number) => Some(Verdict::of(rules.find(number))),
        None => None,
    }
}

/// What is asked: which rule decides a packet at a moment.
#[derive(Clone, Copy)]
pub(crate) struct Query<'a> {
    pub(crate) rules: &'a Rules,
    pub(crate) packet: &'a Packet,
    /// In milliseconds.
    pub(crate) moment: u64,
}

fn number_decides(query: &Query, number: u32) -> bool
    ensures { result ≡ number_decides query.now.rules.now query.now.packet.now query.now.moment number }
{
    match query.rules.find(number) {
        Some(rule) => decides(rule, query.packet, query.moment),
        None => false,
    }
}

/// The first number of a list whose rule decides.
pub(crate) fn first_of(numbers: &Numbers, query: &Query) -> Option<u32>
    ensures { result ≡ find (number_decides query.now.rules.now query.now.packet.now query.now.moment) numbers.now }
{
    numbers
        .iter()
        .copied()
        .find(|number| number_decides(query, *number))
}

/// The first of a list that decides.
fn first_brief(list: &Vec<Brief>, query: &Query) -> Option<Brief>
    ensures { result ≡ find (brief_decides query.now.packet.now query.now.moment) list.now.items }
{
    list.iter()
        .copied()
        .find(|brief| brief.decides(query.packet, query.moment))
}

/// What a rule says, if one was found.
fn said_of(found: Option<Brief>) -> Option<Verdict>
    ensures { result ≡ said_of found }
{
    match found {
        Some(brief) => Some(brief.verdict()),
        None => None,
    }
}

/// The first number under a net whose rule decides, where the only number there is given, if that is known.
fn first_under(index: &Index, net: &AnyNet, sole: Option<u32>, query: &Query) -> Option<u32>
    requires { IsSole (Some sole) (at index.now net.now) }
    ensures { result ≡ find (number_decides query.now.rules.now query.now.packet.now query.now.moment)
        (unwrap_or (at index.now net.now) []) }
{
    match sole {
        Some(number) => {
            if number_decides(query, number) {
                Some(number)
            } else {
                None
            }
        }
        None => match index.under(net) {
            Some(numbers) => first_of(numbers, query),
            None => None,
        },
    }
}

/// One width more of the IPv4 nets round an address, by the index.
fn indexed4(
    best: Option<Verdict>,
    side: &Side,
    address: u32,
    width: u8,
    query: &Query,
) -> Option<Verdict>
    requires { width ≤ 32 }
    ensures { (net_of : Flow → Option AnyNet) → IsSide net_of query.now.rules.now side.now → IsRising query.now.rules.now
        → best ≡ picked query.now.rules.now
        (smallest (decides_below net_of width (kind.V4 address) query.now.packet.now query.now.moment) query.now.rules.now)
        → result ≡ picked query.now.rules.now
        (smallest (decides_below net_of (width + 1) (kind.V4 address) query.now.packet.now query.now.moment) query.now.rules.now) }
{
    match side.index.sole4(address, width) {
        Some(sole) => {
            let net = AnyNet::V4(Net4::new(address, width));
            let first = first_under(&side.index, &net, sole, query);
            earlier(best, picked(query.rules, first))
        }
        None => best,
    }
}

/// One width more of the IPv4 nets round an address, by the list of the net, if there is one.
fn listed4(
    best: Option<Verdict>,
    side: &Side,
    address: u32,
    width: u8,
    query: &Query,
) -> Option<Verdict>
    requires { width ≤ 32 }
    ensures { (net_of : Flow → Option AnyNet) → IsSide net_of query.now.rules.now side.now → IsRising query.now.rules.now
        → best ≡ picked query.now.rules.now
        (smallest (decides_below net_of width (kind.V4 address) query.now.packet.now query.now.moment) query.now.rules.now)
        → result ≡ picked query.now.rules.now
        (smallest (decides_below net_of (width + 1) (kind.V4 address) query.now.packet.now query.now.moment) query.now.rules.now) }
{
    match side.lists.get(&Net4::new(address, width)) {
        Some(list) => earlier(best, said_of(first_brief(list, query))),
        None => indexed4(best, side, address, width, query),
    }
}

/// One width more of the IPv4 nets round an address.
fn more4(
    best: Option<Verdict>,
    side: &Side,
    address: u32,
    width: u8,
    query: &Query,
) -> Option<Verdict>
    requires { width ≤ 32 }
    ensures { (net_of : Flow → Option AnyNet) → IsSide net_of query.now.rules.now side.now → IsRising query.now.rules.now
        → NetsCover net_of (kind.V4 address) query.now.packet.now
        → best ≡ picked query.now.rules.now
        (smallest (decides_below net_of width (kind.V4 address) query.now.packet.now query.now.moment) query.now.rules.now)
        → result ≡ picked query.now.rules.now
        (smallest (decides_below net_of (width + 1) (kind.V4 address) query.now.packet.now query.now.moment) query.now.rules.now) }
{
    if !side.index.has4(width) {
        return best;
    }
    match side.quick.find(&Net4::new(address, width), query.moment) {
        Some(slot) => earlier(best, slot.said(query.packet.outward)),
        None => listed4(best, side, address, width, query),
    }
}

/// What the rule of the least number says, of those that decide under the IPv4 nets that hold an address.
fn least4(side: &Side, address: u32, query: &Query) -> Option<Verdict>
    ensures { (net_of : Flow → Option AnyNet) → IsSide net_of query.now.rules.now side.now → IsRising query.now.rules.now
        → NetsCover net_of (kind.V4 address) query.now.packet.now
        → result ≡ picked query.now.rules.now
        (smallest (decides_in net_of (kind.V4 address) query.now.packet.now query.now.moment) query.now.rules.now) }
{
    let mut best = None;
    for width in 0..33 {
        best = more4(best, side, address, width, query);
    }
    best
}

/// One width more of the IPv6 nets round an address, by the index.
fn indexed6(
    best: Option<Verdict>,
    side: &Side,
    address: u128,
    width: u8,
    query: &Query,
) -> Option<Verdict>
    requires { width ≤ 128 }
    ensures { (net_of : Flow → Option AnyNet) → IsSide net_of query.now.rules.now side.now → IsRising query.now.rules.now
        → best ≡ picked query.now.rules.now
        (smallest (decides_below net_of width (kind.V6 address) query.now.packet.now query.now.moment) query.now.rules.now)
        → result ≡ picked query.now.rules.now
        (smallest (decides_below net_of (width + 1) (kind.V6 address) query.now.packet.now query.now.moment) query.now.rules.now) }
{
    match side.index.sole6(address, width) {
        Some(sole) => {
            let net = AnyNet::V6(Net6::new(address, width));
            let first = first_under(&side.index, &net, sole, query);
            earlier(best, picked(query.rules, first))
        }
        None => best,
    }
}

/// One width more of the IPv6 nets round an address.
fn more6(
    best: Option<Verdict>,
    side: &Side,
    address: u128,
    width: u8,
    query: &Query,
) -> Option<Verdict>
    requires { width ≤ 128 }
    ensures { (net_of : Flow → Option AnyNet) → IsSide net_of query.now.rules.now side.now → IsRising query.now.rules.now
        → NetsCover net_of (kind.V6 address) query.now.packet.now
        → best ≡ picked query.now.rules.now
        (smallest (decides_below net_of width (kind.V6 address) query.now.packet.now query.now.moment) query.now.rules.now)
        → result ≡ picked query.now.rules.now
        (smallest (decides_below net_of (width + 1) (kind.V6 address) query.now.packet.now query.now.moment) query.now.rules.now) }
{
    if !side.index.has6(width) {
        return best;
    }
    match side.quick6.find(&Net6::new(address, width), query.moment) {
        Some(slot) => earlier(best, slot.said(query.packet.outward)),
        None => indexed6(best, side, address, width, query),
    }
}

/// Sixteen widths more of the IPv6 nets round an address.
fn block6(
    best: Option<Verdict>,
    side: &Side,
    address: u128,
    block: u8,
    query: &Query,
) -> Option<Verdict>
    requires { block < 8 }
    ensures { (net_of : Flow → Option AnyNet) → IsSide net_of query.now.rules.now side.now → IsRising query.now.rules.now
        → NetsCover net_of (kind.V6 address) query.now.packet.now
        → best ≡ picked query.now.rules.now (smallest
        (decides_below net_of (block * 16) (kind.V6 address) query.now.packet.now query.now.moment) query.now.rules.now)
        → result ≡ picked query.now.rules.now (smallest
        (decides_below net_of (block * 16 + 16) (kind.V6 address) query.now.packet.now query.now.moment) query.now.rules.now) }
{
    if !side.blocks.has(block) {
        return best;
    }
    let mut most = best;
    for width in block * 16..block * 16 + 16 {
        most = more6(most, side, address, width, query);
    }
    most
}

/// What the rule of the least number says, of those that decide under the IPv6 nets that hold an address.
fn least6(side: &Side, address: u128, query: &Query) -> Option<Verdict>
    ensures { (net_of : Flow → Option AnyNet) → IsSide net_of query.now.rules.now side.now → IsRising query.now.rules.now
        → NetsCover net_of (kind.V6 address) query.now.packet.now
        → result ≡ picked query.now.rules.now
        (smallest (decides_in net_of (kind.V6 address) query.now.packet.now query.now.moment) query.now.rules.now) }
{
    let mut best = None;
    for block in 0..8 {
        best = block6(best, side, address, block, query);
    }
    more6(best, side, address, 128, query)
}

/// What the rule of the least number says, of those that decide under the nets that hold an address.
pub(crate) fn least(side: &Side, address: Address, query: &Query) -> Option<Verdict>
    ensures { (net_of : Flow → Option AnyNet) → IsSide net_of query.now.rules.now side.now → IsRising query.now.rules.now
        → NetsCover net_of address query.now.packet.now
        → result ≡ picked query.now.rules.now
        (smallest (decides_in net_of address query.now.packet.now query.now.moment) query.now.rules.now) }
{
    match address {
        Address::V4(address) => least4(side, address, query),
        Address::V6(address) => least6(side, address, query),
    }
}
