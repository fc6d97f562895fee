//! Addresses, nets, packets and flows of the OpenC2 profile for stateless packet filtering.
//!
//! Each text is read by a grammar that stands in `specs/` and computes the value; `covers` tells whether a flow
//! covers a packet.
#![tactic(auto)]

mod flows;
mod ipv4_nets;
mod ipv6_nets;
mod lines;
mod net_texts;
mod nets;
mod packets;
mod protocols;
mod texts;

pub use flows::{Flow, covers};
pub use ipv4_nets::Net4;
pub use ipv6_nets::Net6;
pub use lines::read_packet;
pub use net_texts::NetText;
pub use nets::{print_net4, print_net6, read_net4, read_net6};
pub use packets::{Address, Packet, Protocol};
pub use protocols::{protocol_word, read_protocol};
