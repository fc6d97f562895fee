// The lines of packets.
ghost use Rattle.std.specs.Prelude.{◌≡◌, None, MatchOption};
ghost use Rattle.oc2_nets.specs.Texts.{space, parts};
ghost use Rattle.oc2_nets.specs.Packets.{outward_of, port_of, address_of, packet, packet_at, packet_of};
ghost use Rattle.oc2_nets.specs.Words.{seven_words};

use crate::packets::{Address, Packet, Protocol};
use crate::protocols::read_protocol;
use crate::texts::{cut, read_address4, read_address6};
use base_decimals::read_number;

/// The greatest moment of a line, in milliseconds.
const MOST_MOMENT: u64 = 9_000_000_000_000_000;

fn read_outward(text: &str) -> Option<bool>
    ensures { result ≡ outward_of text.now }
{
    if text == "egress" {
        Some(true)
    } else if text == "ingress" {
        Some(false)
    } else {
        None
    }
}

fn read_port(protocol: Protocol, text: &str) -> Option<u16>
    ensures { result ≡ port_of protocol text.now }
{
    if protocol == Protocol::Icmp && text == "-" {
        return Some(0);
    }
    let port = read_number(text.as_bytes(), 65_535)?;
    Some(port as u16)
}

fn read_address(text: &str) -> Option<Address>
    ensures { result ≡ address_of text.now }
{
    match read_address4(text) {
        Some(bits) => Some(Address::V4(bits)),
        None => Some(Address::V6(read_address6(text)?)),
    }
}

/// The packet with these addresses, if they are of one family.
fn make_packet(
    outward: bool,
    protocol: Protocol,
    from_port: u16,
    to_port: u16,
    from: Address,
    to: Address,
) -> Option<Packet>
    ensures { result ≡ packet outward protocol from_port to_port from to }
{
    if from.is_v4() != to.is_v4() {
        return None;
    }
    Some(Packet {
        outward,
        protocol,
        from,
        from_port,
        to,
        to_port,
    })
}

/// The seven words of a line.
#[derive(Clone, Copy)]
struct Words<'a> {
    moment: &'a str,
    direction: &'a str,
    protocol: &'a str,
    source: &'a str,
    source_port: &'a str,
    target: &'a str,
    target_port: &'a str,
}

fn read_words(line: &str) -> Option<Words<'_>>
    ensures { MatchOption result (packet_at (parts space line.now) ≡ None)
        (λ words. parts space line.now ≡ seven_words words) }
{
    let (moment, rest) = cut(line, ' ')?;
    let (direction, rest) = cut(rest, ' ')?;
    let (protocol, rest) = cut(rest, ' ')?;
    let (source, rest) = cut(rest, ' ')?;
    let (source_port, rest) = cut(rest, ' ')?;
    let (target, target_port) = cut(rest, ' ')?;
    match cut(target_port, ' ') {
        Some(_) => None,
        None => Some(Words {
            moment,
            direction,
            protocol,
            source,
            source_port,
            target,
            target_port,
        }),
    }
}

fn read_fields(words: Words<'_>) -> Option<(u64, Packet)>
    ensures { result ≡ packet_at (seven_words words.entry) }
{
    let moment = read_number(words.moment.as_bytes(), MOST_MOMENT)?;
    let outward = read_outward(words.direction)?;
    let protocol = read_protocol(words.protocol)?;
    let from_port = read_port(protocol, words.source_port)?;
    let to_port = read_port(protocol, words.target_port)?;
    let from = read_address(words.source)?;
    let to = read_address(words.target)?;
    let packet = make_packet(outward, protocol, from_port, to_port, from, to)?;
    Some((moment, packet))
}

/// The moment, in milliseconds, and the packet of a line `MOMENT DIRECTION PROTOCOL SOURCE PORT DESTINATION PORT`
/// with one space between each two words and no line feed. None exactly outside this grammar: the moment is at
/// most 9,000,000,000,000,000, the addresses are of one family and have no width, and `-` stands for a port of
/// icmp alone, which is then 0.
#[tactic(auto, unfolding(crate::specs::Packets::packet_of))]
pub fn read_packet(line: &str) -> Option<(u64, Packet)>
    ensures { result ≡ packet_of line.now }
{
    read_fields(read_words(line)?)
}
