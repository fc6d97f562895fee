// Flows by their two shapes, of either family.
ghost use Rattle.std.specs.Prelude.{◌≡◌, ◌↔◌, true, false, IsTrue};
ghost use Rattle.oc2_nets.specs.Families.{is_v4};
ghost use Rattle.slpf_shadow.specs.Packets.{IsAddress, IsWithin};
ghost use Rattle.slpf_shadow.specs.Nets.{first_address};
ghost use Rattle.slpf_shadow.specs.Shapes.{either4, either6, flow_within};

use crate::connections::Connection;
use crate::nets::net_within;
use oc2_nets::{Flow, Net4, Net6};
use slpf_rules::AnyNet;

/// A net, whose packets have their source or their destination in it, or a connection.
#[derive(Clone, Copy)]
pub(crate) enum Shape {
    Net(AnyNet),
    Parts(Connection),
}

/// The net, or all IPv4 addresses.
fn either4(net: Option<Net4>) -> AnyNet
    ensures value { result ≡ either4 net }
    ensures family { is_v4 (first_address result) ≡ true }
    ensures fits { IsAddress (first_address result) }
{
    match net {
        None => AnyNet::V4(Net4::new(0, 0)),
        Some(net) => AnyNet::V4(net),
    }
}

/// The net, or all IPv6 addresses.
fn either6(net: Option<Net6>) -> AnyNet
    ensures value { result ≡ either6 net }
    ensures family { is_v4 (first_address result) ≡ false }
    ensures fits { IsAddress (first_address result) }
{
    match net {
        None => AnyNet::V6(Net6::new(0, 0)),
        Some(net) => AnyNet::V6(net),
    }
}

impl Shape {
    ghost use Rattle.slpf_shadow.specs.Shapes.{shape, has_no_packet, shape_within, source_of, destination_of};
    ghost use Rattle.slpf_shadow.specs.Ranges.{IsInRange};

    pub(crate) fn of(flow: Flow) -> Shape
        ensures value { result ≡ shape flow }
        ensures fits { IsInRange result }
    {
        match flow {
            Flow::Net4(net) => Shape::Net(AnyNet::V4(net)),
            Flow::Net6(net) => Shape::Net(AnyNet::V6(net)),
            Flow::Conn4 {
                protocol,
                src,
                src_port,
                dst,
                dst_port,
            } => Shape::Parts(Connection {
                protocol,
                source: either4(src),
                source_port: src_port,
                destination: either4(dst),
                destination_port: dst_port,
            }),
            Flow::Conn6 {
                protocol,
                src,
                src_port,
                dst,
                dst_port,
            } => Shape::Parts(Connection {
                protocol,
                source: either6(src),
                source_port: src_port,
                destination: either6(dst),
                destination_port: dst_port,
            }),
        }
    }

    /// Whether no packet has this shape.
    pub(crate) fn has_no_packet(&self) -> bool
        ensures { result ≡ has_no_packet self.now }
    {
        match self {
            Shape::Net(_) => false,
            Shape::Parts(parts) => parts.is_empty(),
        }
    }

    /// Whether each packet of this shape is one of another.
    pub(crate) fn is_within(&self, outer: &Shape) -> bool
        ensures { result ≡ shape_within self.now outer.now }
    {
        match (self, outer) {
            (Shape::Net(inner), Shape::Net(outer)) => net_within(inner, outer),
            (Shape::Net(inner), Shape::Parts(outer)) => {
                Connection::from_net(inner).is_within(outer)
                    && Connection::to_net(inner).is_within(outer)
            }
            (Shape::Parts(inner), Shape::Net(outer)) => {
                inner.is_empty()
                    || net_within(&inner.source, outer)
                    || net_within(&inner.destination, outer)
            }
            (Shape::Parts(inner), Shape::Parts(outer)) => inner.is_empty()
                || inner.is_within(outer),
        }
    }

    /// The net in which each packet's source lies, where the shape is a connection.
    pub(crate) fn source(&self) -> AnyNet
        ensures { result ≡ source_of self.now }
    {
        match self {
            Shape::Net(net) => *net,
            Shape::Parts(parts) => parts.source,
        }
    }

    /// The net in which each packet's destination lies, where the shape is a connection.
    pub(crate) fn destination(&self) -> AnyNet
        ensures { result ≡ destination_of self.now }
    {
        match self {
            Shape::Net(net) => *net,
            Shape::Parts(parts) => parts.destination,
        }
    }
}

/// Whether each packet that the inner flow covers is covered by the outer one. Flows are targets of OpenC2 SLPF 1.0,
/// section 2.1.2; what they cover is `covers` of `oc2_nets`. A flow that covers no packet, as a connection of icmp with a
/// port, is within each flow. It takes no memory.
pub fn flow_within(inner: &Flow, outer: &Flow) -> bool
    ensures { IsTrue result ↔ IsWithin inner.now outer.now }
{
    Shape::of(*inner).is_within(&Shape::of(*outer))
}
