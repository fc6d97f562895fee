// Connections of either family.
ghost use Rattle.std.specs.Prelude.{◌≡◌};
ghost use Rattle.slpf_shadow.specs.Connections.{is_of_icmp, protocol_within, port_within};

use crate::nets::{net_within, whole_family};
use oc2_nets::Protocol;
use slpf_rules::AnyNet;

/// The packets between two nets of one family, of a protocol and with ports where these are stated.
#[derive(Clone, Copy)]
pub(crate) struct Connection {
    pub(crate) protocol: Option<Protocol>,
    /// All addresses of the family where the source is free; so for the destination.
    pub(crate) source: AnyNet,
    pub(crate) source_port: Option<u16>,
    pub(crate) destination: AnyNet,
    pub(crate) destination_port: Option<u16>,
}

fn is_of_icmp(protocol: Option<Protocol>) -> bool
    ensures { result ≡ is_of_icmp protocol }
{
    match protocol {
        None => false,
        Some(protocol) => protocol == Protocol::Icmp,
    }
}

fn protocol_within(inner: Option<Protocol>, outer: Option<Protocol>) -> bool
    ensures { result ≡ protocol_within inner outer }
{
    match (inner, outer) {
        (_, None) => true,
        (None, Some(_)) => false,
        (Some(inner), Some(outer)) => inner == outer,
    }
}

fn port_within(inner: Option<u16>, outer: Option<u16>) -> bool
    ensures { result ≡ port_within inner outer }
{
    match (inner, outer) {
        (_, None) => true,
        (None, Some(_)) => false,
        (Some(inner), Some(outer)) => inner == outer,
    }
}

impl Connection {
    ghost use Rattle.slpf_shadow.specs.Connections.{from_net, to_net, is_empty, connection_within};

    /// From a net to anywhere.
    pub(crate) fn from_net(net: &AnyNet) -> Connection
        ensures { result ≡ from_net net.now }
    {
        Connection {
            protocol: None,
            source: *net,
            source_port: None,
            destination: whole_family(net),
            destination_port: None,
        }
    }

    /// From anywhere to a net.
    pub(crate) fn to_net(net: &AnyNet) -> Connection
        ensures { result ≡ to_net net.now }
    {
        Connection {
            protocol: None,
            source: whole_family(net),
            source_port: None,
            destination: *net,
            destination_port: None,
        }
    }

    /// Whether it has no packet: a packet of icmp has no port that could agree.
    pub(crate) fn is_empty(&self) -> bool
        ensures { result ≡ is_empty self.now }
    {
        is_of_icmp(self.protocol) && (self.source_port.is_some() || self.destination_port.is_some())
    }

    /// Whether each part is within that of another connection.
    pub(crate) fn is_within(&self, outer: &Connection) -> bool
        ensures { result ≡ connection_within self.now outer.now }
    {
        protocol_within(self.protocol, outer.protocol)
            && net_within(&self.source, &outer.source)
            && port_within(self.source_port, outer.source_port)
            && net_within(&self.destination, &outer.destination)
            && port_within(self.destination_port, outer.destination_port)
    }
}
