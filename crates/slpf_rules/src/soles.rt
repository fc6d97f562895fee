// The numbers that stand alone under a net.
ghost use Rattle.std.specs.Prelude.{◌≡◌, ◌==◌, ℕ, nat_eq, None, Some, OnOk, OnErr, if◌then◌else◌};
ghost use Rattle.std.specs.Option.{option_map};
ghost use Rattle.std.specs.BTreeMap.{is_at};
ghost use Rattle.std.specs.HashMap.{get};
ghost use Rattle.slpf_rules.specs.AnyNets.{net_cmp};
ghost use Rattle.slpf_rules.specs.Soles.{sole_at, key4, kept, unheld};
ghost use Rattle.slpf_rules.specs.declared.any_nets.AnyNet.{AnyNet};

use crate::any_nets::AnyNet;
use oc2_nets::Net4;
use std::alloc::{AllocError, Global};
use std::collections::HashMap;

/// What is known at once of the numbers under IPv4 nets: a net that is not held has none, and one that is held with a
/// number has that one alone; one that is held without a number may have any. Of IPv6 nets nothing is known.
#[derive(Drop)]
pub(crate) struct Soles {
    by_key: HashMap<u64, Option<u32>>,
}

/// The number that stands for a net: its address, and behind it 8 bits for the width.
pub(crate) fn key4(net: Net4) -> u64
    ensures { result ≡ key4 net }
{
    u64::from(net.bits) * 256 + u64::from(net.width)
}

fn hold4(by_key: &mut HashMap<u64, Option<u32>>, key: u64) -> Result<(), AllocError>
    ensures ok { OnOk result ((other : ℕ) → get nat_eq by_key.new other
        ≡ (if key == other then Some None else get nat_eq by_key.old other)) }
    ensures err { OnErr result ((other : ℕ) → get nat_eq by_key.new other ≡ get nat_eq by_key.old other) }
{
    by_key.insert(key, None)?;
    Ok(())
}

fn change4(by_key: &mut HashMap<u64, Option<u32>>, key: u64, sole: Option<u32>)
    ensures { (other : ℕ) → get nat_eq by_key.new other
        ≡ (if key == other then option_map (λ _. sole) (get nat_eq by_key.old other) else get nat_eq by_key.old other) }
{
    match by_key.get_mut(&key) {
        Some(held) => *held = sole,
        None => (),
    }
}

fn drop4(by_key: &mut HashMap<u64, Option<u32>>, key: u64)
    ensures { (other : ℕ) → get nat_eq by_key.new other
        ≡ (if key == other then None else get nat_eq by_key.old other) }
{
    by_key.remove(&key);
}

impl Soles {
    /// No net. Takes no memory.
    pub(crate) fn new(alloc: Global) -> Soles
        ensures { (net : AnyNet) → sole_at result net ≡ unheld net }
    {
        Soles {
            by_key: HashMap::new(alloc),
        }
    }

    /// What is known of a net: `None` where it has no number, and the number within where it is alone.
    pub(crate) fn get(&self, net: &AnyNet) -> Option<Option<u32>>
        ensures { result ≡ sole_at self.now net.now }
    {
        match net {
            AnyNet::V4(net) => self.by_key.get(&key4(*net)).copied(),
            AnyNet::V6(_) => Some(None),
        }
    }

    /// Holds a net without a number.
    pub(crate) fn hold(&mut self, net: &AnyNet) -> Result<(), AllocError>
        ensures ok { OnOk result ((other : AnyNet) → sole_at self.new other
            ≡ (if is_at (net_cmp net.now) other then Some None else sole_at self.old other)) }
        ensures err { OnErr result ((other : AnyNet) → sole_at self.new other ≡ sole_at self.old other) }
    {
        match net {
            AnyNet::V4(net) => {
                hold4(&mut self.by_key, key4(*net))?;
                Ok(())
            }
            AnyNet::V6(_) => Ok(()),
        }
    }

    /// Changes what is known of a net, if it is held.
    pub(crate) fn change(&mut self, net: &AnyNet, sole: Option<u32>)
        ensures { (other : AnyNet) → sole_at self.new other ≡ (if is_at (net_cmp net.now) other
            then option_map (λ _. kept net.now sole) (sole_at self.old other) else sole_at self.old other) }
    {
        match net {
            AnyNet::V4(net) => change4(&mut self.by_key, key4(*net), sole),
            AnyNet::V6(_) => (),
        }
    }

    /// Holds a net no longer.
    pub(crate) fn leave(&mut self, net: &AnyNet)
        ensures { (other : AnyNet) → sole_at self.new other
            ≡ (if is_at (net_cmp net.now) other then unheld other else sole_at self.old other) }
    {
        match net {
            AnyNet::V4(net) => drop4(&mut self.by_key, key4(*net)),
            AnyNet::V6(_) => (),
        }
    }
}
