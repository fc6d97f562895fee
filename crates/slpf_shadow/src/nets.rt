// Nets of either family.
ghost use Rattle.std.specs.Prelude.{◌≡◌, ◌≤◌};
ghost use Rattle.slpf_rules.specs.AnyNets.{width};
ghost use Rattle.slpf_rules.specs.Deciding.{lies_in};
ghost use Rattle.slpf_shadow.specs.Packets.{IsAddress};
ghost use Rattle.slpf_shadow.specs.Nets.{length_of, first_address, net_at, whole_family, net_within};

use oc2_nets::{Address, Net4, Net6};
use slpf_rules::AnyNet;

/// How many bits count.
pub(crate) fn width(net: &AnyNet) -> u8
    ensures value { result ≡ width net.now }
    ensures fits { result ≤ length_of (first_address net.now) }
{
    match net {
        AnyNet::V4(net) => net.width,
        AnyNet::V6(net) => net.width,
    }
}

/// The first address of a net.
pub(crate) fn first_address(net: AnyNet) -> Address
    ensures value { result ≡ first_address net }
    ensures fits { IsAddress result }
{
    match net {
        AnyNet::V4(net) => Address::V4(net.bits),
        AnyNet::V6(net) => Address::V6(net.bits),
    }
}

fn contains(net: &AnyNet, address: Address) -> bool
    ensures { result ≡ lies_in address net.now }
{
    match net {
        AnyNet::V4(net) => net.contains(address),
        AnyNet::V6(net) => net.contains(address),
    }
}

/// The net of this width round an address.
pub(crate) fn net_at(address: Address, width: u8) -> AnyNet
    requires { width ≤ length_of address }
    ensures { result ≡ net_at address width }
{
    match address {
        Address::V4(bits) => AnyNet::V4(Net4::new(bits, width)),
        Address::V6(bits) => AnyNet::V6(Net6::new(bits, width)),
    }
}

/// All addresses of a net's family.
pub(crate) fn whole_family(net: &AnyNet) -> AnyNet
    ensures { result ≡ whole_family net.now }
{
    match net {
        AnyNet::V4(_) => AnyNet::V4(Net4::new(0, 0)),
        AnyNet::V6(_) => AnyNet::V6(Net6::new(0, 0)),
    }
}

/// Whether each address of a net lies in another.
pub(crate) fn net_within(inner: &AnyNet, outer: &AnyNet) -> bool
    ensures { result ≡ net_within inner.now outer.now }
{
    width(outer) <= width(inner) && contains(outer, first_address(*inner))
}
