// Flows of rows: `net4 NET`, `net6 NET`, and `conn4 PROTOCOL SRC SRC_PORT DST DST_PORT` or `conn6 ..` with a hyphen for each part that
// is not stated.
use crate::answers::words;
use oc2_nets::{Flow, read_net4, read_net6, read_protocol};
use std::alloc::{AllocError, Global};

/// A part that may be stated, by its word and what was read of that; nothing where the word is none.
fn part<T: Copy>(word: &str, found: Option<T>) -> Option<Option<T>> {
    if word == "-" {
        return Some(None);
    }
    Some(Some(found?))
}

/// The port of a word.
fn port(word: &str) -> Option<u16> {
    word.parse::<u16>().ok()
}

fn conn4(protocol: &str, src: &str, src_port: &str, dst: &str, dst_port: &str) -> Option<Flow> {
    Some(Flow::Conn4 {
        protocol: part(protocol, read_protocol(protocol))?,
        src: part(src, read_net4(src))?,
        src_port: part(src_port, port(src_port))?,
        dst: part(dst, read_net4(dst))?,
        dst_port: part(dst_port, port(dst_port))?,
    })
}

fn conn6(protocol: &str, src: &str, src_port: &str, dst: &str, dst_port: &str) -> Option<Flow> {
    Some(Flow::Conn6 {
        protocol: part(protocol, read_protocol(protocol))?,
        src: part(src, read_net6(src))?,
        src_port: part(src_port, port(src_port))?,
        dst: part(dst, read_net6(dst))?,
        dst_port: part(dst_port, port(dst_port))?,
    })
}

fn net(kind: &str, net: &str) -> Option<Flow> {
    match kind {
        "net4" => Some(Flow::Net4(read_net4(net)?)),
        "net6" => Some(Flow::Net6(read_net6(net)?)),
        _ => None,
    }
}

/// The flow of these words.
fn flow_of(words: &[&str]) -> Option<Flow> {
    match words {
        [kind, address] => net(kind, address),
        [kind, protocol, src, src_port, dst, dst_port] => match *kind {
            "conn4" => conn4(protocol, src, src_port, dst, dst_port),
            "conn6" => conn6(protocol, src, src_port, dst, dst_port),
            _ => None,
        },
        _ => None,
    }
}

/// The flow of a text; nothing where it is none.
pub(crate) fn read_flow(alloc: Global, text: &str) -> Result<Option<Flow>, AllocError> {
    let words = words(alloc, text)?;
    Ok(flow_of(words.as_slice()))
}
