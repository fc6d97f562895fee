// Rows of nets and packets: `net4 TEXT`, `net6 TEXT`, `packet LINE`, `protocol NAME` and `covers FLOW LINE`.
use crate::answers::{none, truth, unknown};
use crate::flows::read_flow;
use oc2_nets::{
    Address, Packet, Protocol, covers, print_net4, print_net6, protocol_word, read_net4, read_net6,
    read_packet, read_protocol,
};
use std::alloc::{AllocError, Global};
use test_rows::Row;

fn net4(alloc: Global, text: &str) -> Result<String, AllocError> {
    match read_net4(text) {
        Some(net) => {
            let shown = print_net4(alloc, &net)?;
            Ok(shown.into_string())
        }
        None => none(alloc),
    }
}

fn net6(alloc: Global, text: &str) -> Result<String, AllocError> {
    match read_net6(text) {
        Some(net) => {
            let shown = print_net6(alloc, &net)?;
            Ok(shown.into_string())
        }
        None => none(alloc),
    }
}

/// The name of the variant.
fn variant(protocol: Protocol) -> &'static str {
    match protocol {
        Protocol::Icmp => "Icmp",
        Protocol::Tcp => "Tcp",
        Protocol::Udp => "Udp",
        Protocol::Sctp => "Sctp",
    }
}

/// The bits of an address, in hexadecimal digits.
fn bits(alloc: Global, address: Address) -> Result<String, AllocError> {
    match address {
        Address::V4(bits) => format!(in alloc; "V4 {bits:08x}"),
        Address::V6(bits) => format!(in alloc; "V6 {bits:032x}"),
    }
}

fn shown(alloc: Global, moment: u64, packet: &Packet) -> Result<String, AllocError> {
    let way = if packet.outward { "out" } else { "in" };
    let protocol = variant(packet.protocol);
    let from = bits(alloc, packet.from)?;
    let from_port = packet.from_port;
    let to = bits(alloc, packet.to)?;
    let to_port = packet.to_port;
    format!(in alloc; "{moment} {way} {protocol} {from} {from_port} {to} {to_port}")
}

fn packet(alloc: Global, line: &str) -> Result<String, AllocError> {
    match read_packet(line) {
        Some((moment, packet)) => shown(alloc, moment, &packet),
        None => none(alloc),
    }
}

/// The variant of the protocol of this name, and the name of that.
fn protocol(alloc: Global, name: &str) -> Result<String, AllocError> {
    match read_protocol(name) {
        Some(protocol) => {
            let variant = variant(protocol);
            let word = protocol_word(protocol);
            format!(in alloc; "{variant} {word}")
        }
        None => none(alloc),
    }
}

fn covered(alloc: Global, flow: &str, line: &str) -> Result<String, AllocError> {
    let Some(flow) = read_flow(alloc, flow)? else {
        return unknown(alloc);
    };
    match read_packet(line) {
        Some((_, packet)) => truth(alloc, covers(&flow, &packet)),
        None => unknown(alloc),
    }
}

/// What a row answers.
pub(crate) fn answer(alloc: Global, row: &Row) -> Result<String, AllocError> {
    match row.text(0) {
        "net4" => net4(alloc, row.text(1)),
        "net6" => net6(alloc, row.text(1)),
        "packet" => packet(alloc, row.text(1)),
        "protocol" => protocol(alloc, row.text(1)),
        "covers" => covered(alloc, row.text(1), row.text(2)),
        _ => unknown(alloc),
    }
}
