// Protocols by their names.
ghost use Rattle.std.specs.Prelude.{◌≡◌, Some};
ghost use Rattle.oc2_nets.specs.Packets.{protocol_of, protocol_word};

use crate::packets::Protocol;

/// The protocol of this name (OpenC2 Language 1.0, section 3.4.2.10, and `sctp`). It takes no memory.
pub fn read_protocol(text: &str) -> Option<Protocol>
    ensures { result ≡ protocol_of text.now }
{
    if text == "icmp" {
        Some(Protocol::Icmp)
    } else if text == "tcp" {
        Some(Protocol::Tcp)
    } else if text == "udp" {
        Some(Protocol::Udp)
    } else if text == "sctp" {
        Some(Protocol::Sctp)
    } else {
        None
    }
}

/// The name of the protocol, which is read as it.
pub fn protocol_word(protocol: Protocol) -> &'static str
    ensures word { result.now ≡ protocol_word protocol }
    ensures back { protocol_of result.now ≡ Some protocol }
{
    match protocol {
        Protocol::Icmp => "icmp",
        Protocol::Tcp => "tcp",
        Protocol::Udp => "udp",
        Protocol::Sctp => "sctp",
    }
}
