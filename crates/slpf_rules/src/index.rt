// Numbers of rules by net.
ghost use Rattle.std.specs.Prelude.{◌≡◌, ℕ, ◌<◌, ◌≤◌, ◌^◌, [], None, IsSome, IfOk, OnOk, OnErr, unwrap_or, false, if◌then◌else◌};
ghost use Rattle.std.specs.Bool.{OnTrue, OnFalse};
ghost use Rattle.std.specs.Option.{option_copied};
ghost use Rattle.std.specs.Ordering.{nat_cmp};
ghost use Rattle.std.specs.Set.{remove_key};
ghost use Rattle.std.specs.BTreeSet.{insert_key};
ghost use Rattle.std.specs.BTreeMap.{is_at, keys, btree_map_len};
ghost use Rattle.oc2_nets.specs.Nets.{net4, net6};
ghost use Rattle.slpf_rules.specs.AnyNets.{net_cmp};
ghost use Rattle.slpf_rules.specs.Filed.{listed};
ghost use Rattle.slpf_rules.specs.IndexEntries.{at, Puts, Takes};
ghost use Rattle.slpf_rules.specs.Soles.{IsSole};
ghost use Rattle.slpf_rules.specs.declared.any_nets.AnyNet.{AnyNet};
ghost use Rattle.slpf_rules.specs.declared.any_nets.AnyNet.TheVariants.{V4, V6};

use crate::any_nets::AnyNet;
use crate::numbers::Numbers;
use crate::soles::Soles;
use crate::widths::Widths;
use oc2_nets::{Net4, Net6};
use std::alloc::{AllocError, Global};
use std::collections::BTreeMap;
use std::marker::Model;

/// Numbers of rules by net. Beside them it counts the nets of each width, so that a look-up of a width that no net
/// has is left out, and keeps the number that stands alone under a net, so that most look-ups need not search the nets.
#[derive(Drop)]
pub(crate) struct Index {
    nets: BTreeMap<AnyNet, Numbers>,
    widths: Widths,
    soles: Soles,
}

impl Model for Index {
    ghost use Rattle.std.specs.Prelude.{List, ℕ};
    ghost use Rattle.slpf_rules.specs.declared.any_nets.AnyNet.{AnyNet};

    ghost Value = { List (AnyNet × List ℕ) };

    ghost use Rattle.slpf_rules.specs.Indexes.{IsIndex};

    ghost view = { λ index. index.nets.entries };

    ghost invariant = { λ index. IsIndex index.widths index.soles index.nets.entries };
}

/// Puts a number under a net that is there; false where it is not.
fn put_under(
    nets: &mut BTreeMap<AnyNet, Numbers>,
    net: &AnyNet,
    number: u32,
) -> Result<bool, AllocError>
    ensures put { IfOk result (λ found. OnTrue found (Puts nets.old.entries nets.new.entries net.now number)) }
    ensures absent { IfOk result (λ found. OnFalse found (at nets.old.entries net.now ≡ None)) }
    ensures unchanged { IfOk result (λ found. OnFalse found (nets.new.entries ≡ nets.old.entries)) }
    ensures err { OnErr result ((other : AnyNet) → at nets.new.entries other ≡ at nets.old.entries other) }
    ensures same_keys { keys nets.new ≡ keys nets.old }
{
    let Some(numbers) = nets.get_mut(net) else {
        return Ok(false);
    };
    numbers.insert(number)?;
    Ok(true)
}

/// Puts a number under a net; true where the net is new.
fn put(
    alloc: Global,
    nets: &mut BTreeMap<AnyNet, Numbers>,
    net: AnyNet,
    number: u32,
) -> Result<bool, AllocError>
    ensures ok { OnOk result (Puts nets.old.entries nets.new.entries net number) }
    ensures err { OnErr result ((other : AnyNet) → at nets.new.entries other ≡ at nets.old.entries other) }
    ensures same_keys { OnErr result (keys nets.new ≡ keys nets.old) }
    ensures keys { IfOk result (λ added. keys nets.new
        ≡ (if added then insert_key net_cmp (keys nets.old) net else keys nets.old)) }
    ensures absent { IfOk result (λ added. OnTrue added (at nets.old.entries net ≡ None)) }
    ensures few { IfOk result (λ added. OnTrue added (btree_map_len nets.old < 2 ^ 63)) }
{
    if put_under(nets, &net, number)? {
        return Ok(false);
    }
    prove!(nets.len() < usize::MAX);
    let mut numbers = Numbers::new(alloc);
    numbers.insert(number)?;
    nets.insert(net, numbers)?;
    Ok(true)
}

/// Takes a number from under a net; true where that leaves an empty list there.
fn take_under(nets: &mut BTreeMap<AnyNet, Numbers>, net: &AnyNet, number: u32) -> bool
    ensures emptied { OnTrue result (IsSome (at nets.old.entries net.now)) }
    ensures none { OnTrue result (remove_key (is_at (nat_cmp number)) (unwrap_or (at nets.old.entries net.now) []) ≡ []) }
    ensures others { OnTrue result ((other : AnyNet) → is_at (net_cmp net.now) other ≡ false
        → at nets.new.entries other ≡ at nets.old.entries other) }
    ensures taken { OnFalse result (Takes nets.old.entries nets.new.entries net.now number) }
    ensures same_keys { keys nets.new ≡ keys nets.old }
{
    let Some(numbers) = nets.get_mut(net) else {
        return false;
    };
    numbers.remove(number);
    numbers.is_empty()
}

/// Takes a number from under a net; true where the net goes with it.
fn take(nets: &mut BTreeMap<AnyNet, Numbers>, net: &AnyNet, number: u32) -> bool
    ensures taken { Takes nets.old.entries nets.new.entries net.now number }
    ensures keys { keys nets.new
        ≡ (if result then remove_key (is_at (net_cmp net.now)) (keys nets.old) else keys nets.old) }
    ensures present { OnTrue result (IsSome (at nets.old.entries net.now)) }
    ensures none { OnTrue result
        (listed (remove_key (is_at (nat_cmp number)) (unwrap_or (at nets.old.entries net.now) [])) ≡ None) }
{
    if !take_under(nets, net, number) {
        return false;
    }
    nets.remove(net);
    true
}

impl Index {
    /// No number. Takes no memory.
    pub(crate) fn new(alloc: Global) -> Index
        ensures { result ≡ [] }
    {
        Index {
            nets: BTreeMap::new(alloc),
            widths: Widths::new(),
            soles: Soles::new(alloc),
        }
    }

    /// The nets and their numbers.
    pub(crate) fn nets(&self) -> &BTreeMap<AnyNet, Numbers>
        ensures { result.now.entries ≡ self.now }
    {
        &self.nets
    }

    /// Puts a number under a net; true where the net is new. Nothing changes where memory is wanted.
    pub(crate) fn add(
        &mut self,
        alloc: Global,
        net: AnyNet,
        number: u32,
    ) -> Result<bool, AllocError>
        ensures ok { OnOk result (Puts self.old self.new net number) }
        ensures alone { IfOk result (λ added. OnTrue added (at self.old net ≡ None)) }
        ensures err { OnErr result ((other : AnyNet) → at self.new other ≡ at self.old other) }
    {
        self.soles.hold(&net)?;
        let added = put(alloc, &mut self.nets, net, number)?;
        if added {
            self.widths.add(&net);
            self.soles.change(&net, Some(number));
        }
        Ok(added)
    }

    /// Takes a number from under a net, and the net with its last one. It takes no memory.
    pub(crate) fn remove(&mut self, net: &AnyNet, number: u32)
        ensures { Takes self.old self.new net.now number }
    {
        if take(&mut self.nets, net, number) {
            self.widths.remove(net);
            self.soles.leave(net);
        } else {
            self.soles.change(net, None);
        }
    }

    /// What stands under a net.
    pub(crate) fn under(&self, net: &AnyNet) -> Option<&Numbers>
        ensures { option_copied result ≡ at self.now net.now }
    {
        self.nets.get(net)
    }

    /// Whether there are IPv4 nets of this width.
    pub(crate) fn has4(&self, width: u8) -> bool
        requires { width ≤ 32 }
        ensures { OnFalse result ((address : ℕ) → at self.now (V4 (net4 address width)) ≡ None) }
    {
        if self.widths.v4[width as usize] == 0 {
            return false;
        }
        true
    }

    /// Whether there are IPv6 nets of this width.
    pub(crate) fn has6(&self, width: u8) -> bool
        requires { width ≤ 128 }
        ensures { OnFalse result ((address : ℕ) → at self.now (V6 (net6 address width)) ≡ None) }
    {
        if self.widths.v6[width as usize] == 0 {
            return false;
        }
        true
    }

    /// What is known of the IPv4 net of this width round an address: `None` where it has no number, and the number
    /// within where it is alone.
    pub(crate) fn sole4(&self, address: u32, width: u8) -> Option<Option<u32>>
        requires { width ≤ 32 }
        ensures { IsSole result (at self.now (V4 (net4 address width))) }
    {
        if self.widths.v4[width as usize] == 0 {
            return None;
        }
        self.soles.get(&AnyNet::V4(Net4::new(address, width)))
    }

    /// What is known of the IPv6 net of this width round an address, likewise.
    pub(crate) fn sole6(&self, address: u128, width: u8) -> Option<Option<u32>>
        requires { width ≤ 128 }
        ensures { IsSole result (at self.now (V6 (net6 address width))) }
    {
        if self.widths.v6[width as usize] == 0 {
            return None;
        }
        self.soles.get(&AnyNet::V6(Net6::new(address, width)))
    }
}
