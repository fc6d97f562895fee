// Flows, and which packets they cover.
ghost use Rattle.std.specs.Prelude.{◌≡◌};
ghost use Rattle.oc2_nets.specs.Nets.{lies4, lies6};
ghost use Rattle.oc2_nets.specs.Flows.{agrees, covers, has_port, is_protocol};

use crate::ipv4_nets::Net4;
use crate::ipv6_nets::Net6;
use crate::packets::{Address, Packet, Protocol};

/// What a rule speaks of (OpenC2 SLPF 1.0, section 2.1.2): a net, or a connection with the parts that it states.
#[derive(Clone, Copy, PartialEq, Eq)]
pub enum Flow {
    Net4(Net4),
    Net6(Net6),
    Conn4 {
        protocol: Option<Protocol>,
        src: Option<Net4>,
        src_port: Option<u16>,
        dst: Option<Net4>,
        dst_port: Option<u16>,
    },
    Conn6 {
        protocol: Option<Protocol>,
        src: Option<Net6>,
        src_port: Option<u16>,
        dst: Option<Net6>,
        dst_port: Option<u16>,
    },
}

fn agrees4(net: Option<Net4>, address: Address) -> bool
    ensures { result ≡ agrees (λ n. lies4 n address) net }
{
    match net {
        Some(net) => net.contains(address),
        None => true,
    }
}

fn agrees6(net: Option<Net6>, address: Address) -> bool
    ensures { result ≡ agrees (λ n. lies6 n address) net }
{
    match net {
        Some(net) => net.contains(address),
        None => true,
    }
}

fn agrees_port(stated: Option<u16>, protocol: Protocol, port: u16) -> bool
    ensures { result ≡ agrees (has_port protocol port) stated }
{
    match stated {
        Some(stated) => protocol != Protocol::Icmp && port == stated,
        None => true,
    }
}

fn agrees_protocol(stated: Option<Protocol>, protocol: Protocol) -> bool
    ensures { result ≡ agrees (is_protocol protocol) stated }
{
    match stated {
        Some(stated) => protocol == stated,
        None => true,
    }
}

/// Whether a flow covers a packet. A net covers each packet of its family whose source or destination lies in it.
/// A connection covers each packet of its family with which every part that it states agrees; a stated port agrees
/// with no icmp packet. It takes no memory.
pub fn covers(flow: &Flow, packet: &Packet) -> bool
    ensures { result ≡ covers flow.now packet.now }
{
    let protocol = packet.protocol;
    match *flow {
        Flow::Net4(net) => net.contains(packet.from) || net.contains(packet.to),
        Flow::Net6(net) => net.contains(packet.from) || net.contains(packet.to),
        Flow::Conn4 {
            protocol: stated,
            src,
            src_port,
            dst,
            dst_port,
        } => {
            packet.from.is_v4()
                && agrees_protocol(stated, protocol)
                && agrees4(src, packet.from)
                && agrees_port(src_port, protocol, packet.from_port)
                && agrees4(dst, packet.to)
                && agrees_port(dst_port, protocol, packet.to_port)
        }
        Flow::Conn6 {
            protocol: stated,
            src,
            src_port,
            dst,
            dst_port,
        } => {
            !packet.from.is_v4()
                && agrees_protocol(stated, protocol)
                && agrees6(src, packet.from)
                && agrees_port(src_port, protocol, packet.from_port)
                && agrees6(dst, packet.to)
                && agrees_port(dst_port, protocol, packet.to_port)
        }
    }
}
