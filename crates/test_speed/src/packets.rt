// Packets that are decided.
use crate::commands::{DOCUMENTATION, TEN};
use crate::tables::{Kind, shared_port};
use oc2_nets::{Address, Packet, Protocol};

/// Which packets are decided.
#[derive(Clone, Copy)]
pub(crate) enum Traffic {
    /// Packets to 172.16.0.0 and on, which no rule covers.
    Outside,
    /// Packets each of which one rule covers, of the first rules of a table, so many.
    Inside { kind: Kind, rules: u32 },
}

/// The packet from 192.0.2.1 to an address.
fn packet_to(to: u32, port: u16) -> Packet {
    Packet {
        outward: false,
        protocol: Protocol::Tcp,
        from: Address::V4(0xc000_0201),
        from_port: 1,
        to: Address::V4(to),
        to_port: port,
    }
}

/// The packet from 2001:db8:1::1 to an address.
fn packet_to6(to: u128) -> Packet {
    Packet {
        outward: false,
        protocol: Protocol::Tcp,
        from: Address::V6(DOCUMENTATION + 0x1_0000_0000_0000_0000_0001),
        from_port: 1,
        to: Address::V6(to),
        to_port: 443,
    }
}

/// A packet that the rule of this number covers, from 0 on.
fn packet_of(kind: Kind, number: u32) -> Packet {
    match kind {
        Kind::Nets | Kind::Connections => packet_to(TEN + number % 65_536 * 256 + 1, 443),
        Kind::Nets6 => packet_to6(
            DOCUMENTATION + u128::from(number % 65_536) * 0x1_0000_0000_0000_0000 + 1,
        ),
        Kind::Shared => packet_to(TEN + number / 64 % 65_536 * 256 + 1, shared_port(number)),
    }
}

impl Traffic {
    /// What these packets are called.
    pub(crate) fn word(self) -> &'static str {
        match self {
            Traffic::Outside => "packets that no rule covers",
            Traffic::Inside { kind, .. } => match kind {
                Kind::Nets => "packets that one rule covers",
                Kind::Nets6 => "packets to IPv6 nets",
                Kind::Connections => "packets of connections with ports",
                Kind::Shared => "packets to nets of 64 rules",
            },
        }
    }

    /// The packet of this number. Those that rules cover go to and fro among the rules.
    pub(crate) fn packet(self, number: u32) -> Packet {
        match self {
            Traffic::Outside => packet_to(0xac10_0000 + number % 1_000_000, 443),
            Traffic::Inside { kind, rules } => {
                let rule = number.wrapping_mul(40_503).checked_rem(rules).unwrap_or(0);
                packet_of(kind, rule)
            }
        }
    }
}
