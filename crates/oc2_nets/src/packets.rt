// Packets, and their lines.
ghost use Rattle.std.specs.Prelude.{◌≡◌};
ghost use Rattle.oc2_nets.specs.Families.{is_v4};

/// The protocol of a packet.
#[derive(Clone, Copy, PartialEq, Eq)]
pub enum Protocol {
    Icmp,
    Tcp,
    Udp,
    Sctp,
}

/// The bits of an address, the most significant first.
#[derive(Clone, Copy, PartialEq, Eq)]
pub enum Address {
    V4(u32),
    V6(u128),
}

/// A packet at a filter. Both of its addresses are of one family.
#[derive(Clone, Copy, PartialEq, Eq)]
pub struct Packet {
    /// Whether it goes out (egress), and not in (ingress).
    pub outward: bool,
    pub protocol: Protocol,
    pub from: Address,
    /// The port of the source, 0 where it has none.
    pub from_port: u16,
    pub to: Address,
    /// The port of the destination, 0 where it has none.
    pub to_port: u16,
    pub ghost same_family: { is_v4 from ≡ is_v4 to },
}

impl Address {
    /// Whether this is an IPv4 address.
    pub fn is_v4(&self) -> bool
        ensures { result ≡ is_v4 self.now }
    {
        match self {
            Address::V4(_) => true,
            Address::V6(_) => false,
        }
    }
}
