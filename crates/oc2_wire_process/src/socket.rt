// A link over a socket.
ghost use Rattle.std.specs.Prelude.{◌≡◌, ◌≢◌, ◌≤◌, ◌<◌, [], length, take, drop, IfOk, OnErr, OnOk};
ghost use Rattle.std.specs.Io.KnownBytes.{Appends, Consumes, IsAtEnd};
ghost use Rattle.cacao_site.specs.Counts.{next_count};
ghost use Rattle.oc2_wire_link.specs.Links.{KeepsBytes, Receives, Sends};

use cacao_site::Failed;
use oc2_wire_link::Link;
use std::io;
use std::io::{Read, Write};

/// A socket that is connected. It tells no bytes, only how many of its calls failed. Over a stream that tells what is written to it
/// and what is left to read, its calls say that these are the bytes that they send and receive.
///
/// A call hands over at most 65,536 bytes, or fills at most 4,096. Each error of std is a fault.
#[derive(Drop)]
pub struct SocketLink<T> {
    stream: T,
    faults: u64,
}

impl<T> SocketLink<T> {
    /// A link over this stream.
    pub(crate) fn new(stream: T) -> SocketLink<T>
        ensures { result.faults ≡ 0 }
    {
        SocketLink { stream, faults: 0 }
    }

    /// How many calls failed.
    pub(crate) fn faults(&self) -> u64
        ensures { result ≡ self.now.faults }
    {
        self.faults
    }

    fn fail(&mut self) -> Failed
        ensures { self.new.faults ≡ next_count self.old.faults }
    {
        self.faults = self.faults.saturating_add(1);
        Failed
    }
}

/// Fills the front of a short slice, and answers how many bytes came.
fn receive_block<T: Read>(stream: &mut T, into: &mut [u8]) -> io::Result<usize>
    requires { length into.old ≤ 4_096 }
    ensures count { IfOk result (λ n. n ≤ length into.old) }
    ensures behind { IfOk result (λ n. drop n into.new ≡ drop n into.old) }
    ensures came { IfOk result (λ n. Consumes (T.remaining stream.old) (T.remaining stream.new) (take n into.new)) }
    ensures end { IfOk result (λ n. n ≡ 0 → 0 < length into.old → IsAtEnd (T.remaining stream.new)) }
{
    let mut block = [0u8; 4096];
    let count = stream.read(&mut block[..into.len()])?;
    into[..count].copy_from_slice(&block[..count]);
    Ok(count)
}

impl<T: Read + Write> Link for SocketLink<T> {
    ghost use Rattle.oc2_wire_process.specs.Socket.{socket_view, stream_of};

    ghost view = { socket_view };

    /// Writes the front of the bytes to the stream, in one call.
    fn send(&mut self, bytes: &[u8]) -> Result<u32, Failed>
        ensures count { IfOk result (λ n. n ≤ length bytes.now) }
        ensures some { IfOk result (λ n. bytes.now ≢ [] → 1 ≤ n) }
        ensures sends { IfOk result (λ n. Sends (take n bytes.now) (socket_view self.old) (socket_view self.new)) }
        ensures faultless { OnOk result ((socket_view self.new).faults ≡ (socket_view self.old).faults) }
        ensures cause { OnErr result ((socket_view self.new).faults ≡ next_count (socket_view self.old).faults) }
        ensures failed { OnErr result (KeepsBytes (socket_view self.old) (socket_view self.new)) }
        ensures wrote { IfOk result
            (λ n. Appends (T.contents (stream_of self.old)) (T.contents (stream_of self.new)) (take n bytes.now)) }
    {
        let front = &bytes[..bytes.len().min(65_536)];
        match self.stream.write(front) {
            Ok(count) if count > 0 || bytes.is_empty() => Ok(count as u32),
            _ => Err(self.fail()),
        }
    }

    /// Reads from the stream, in one call.
    fn receive(&mut self, into: &mut [u8]) -> Result<u32, Failed>
        ensures count { IfOk result (λ n. n ≤ length into.old) }
        ensures receives { IfOk result (λ n. Receives (take n into.new) (into.old ≢ []) (socket_view self.old) (socket_view self.new)) }
        ensures behind { IfOk result (λ n. drop n into.new ≡ drop n into.old) }
        ensures faultless { OnOk result ((socket_view self.new).faults ≡ (socket_view self.old).faults) }
        ensures cause { OnErr result ((socket_view self.new).faults ≡ next_count (socket_view self.old).faults) }
        ensures failed { OnErr result (KeepsBytes (socket_view self.old) (socket_view self.new)) }
        ensures came { IfOk result
            (λ n. Consumes (T.remaining (stream_of self.old)) (T.remaining (stream_of self.new)) (take n into.new)) }
        ensures end { IfOk result (λ n. n ≡ 0 → into.old ≢ [] → IsAtEnd (T.remaining (stream_of self.new))) }
    {
        let most = into.len().min(4_096);
        match receive_block(&mut self.stream, &mut into[..most]) {
            Ok(count) => Ok(count as u32),
            Err(_) => Err(self.fail()),
        }
    }
}
