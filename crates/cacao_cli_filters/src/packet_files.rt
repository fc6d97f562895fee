// Files of packets.
ghost use Rattle.std.specs.Prelude.{◌≡◌, ◌<◌, ◌≤◌, ◌∷◌, [], ℕ, ◌==◌, length, IfOk, IfSome, IsErrOf, MatchOption, Ok, Err};
ghost use Rattle.std.specs.List.{position};
ghost use Rattle.oc2_nets.specs.Texts.{parts};
ghost use Rattle.cacao_cli_filters.specs.PacketFiles.{line_feed, packet_in, packets_of};

use oc2_nets::{Packet, read_packet};
use std::alloc::Global;
use std::str;

/// Why a file gives no packets.
#[derive(Clone, Copy, Drop, PartialEq, Eq)]
pub enum PacketsError {
    /// The line of this number, from 1, is the first that is none.
    Line { number: u32 },
    Memory,
}

/// The moments, in milliseconds, and the packets of a file of at most 1,048,576 bytes, in the order of its lines.
pub fn read_packets(alloc: Global, bytes: &[u8]) -> Result<Vec<(u64, Packet)>, PacketsError>
    requires { length bytes.now ≤ 1_048_576 }
    ensures ok { IfOk result (λ packets. packets_of bytes.now ≡ Ok packets.items) }
    ensures line { (number : ℕ) → IsErrOf result (PacketsError.Line number) → packets_of bytes.now ≡ Err number }
{
    let mut packets = Vec::new(alloc);
    let mut rest = bytes;
    let mut number: u32 = 1;
    while let Some((line, behind)) = cut_line(rest) {
        let Some(packet) = packet_in(line) else {
            return Err(PacketsError::Line { number });
        };
        match packets.push(packet) {
            Ok(()) => {}
            Err(_) => return Err(PacketsError::Memory),
        }
        rest = behind;
        number += 1;
    }
    if rest.is_empty() {
        Ok(packets)
    } else {
        Err(PacketsError::Line { number })
    }
}

/// The place of the first line feed.
fn feed_in(text: &[u8]) -> Option<usize>
    ensures { result ≡ position (λ c. c == line_feed) text.now }
{
    text.iter().position(|c| *c == b'\n')
}

/// What stands before the first line feed, and what stands behind it.
fn cut_line(text: &[u8]) -> Option<(&[u8], &[u8])>
    ensures parts { MatchOption result (parts line_feed text.now ≡ text.now ∷ [])
        (λ found. parts line_feed text.now ≡ found.0.now ∷ parts line_feed found.1.now) }
    ensures shorter { IfSome result (λ found. length found.1.now < length text.now) }
{
    match feed_in(text) {
        Some(place) => Some((&text[..place], &text[place + 1..])),
        None => None,
    }
}

fn packet_in(line: &[u8]) -> Option<(u64, Packet)>
    ensures { result ≡ packet_in line.now }
{
    match str::from_utf8(line) {
        Ok(line) => read_packet(line),
        Err(_) => None,
    }
}
