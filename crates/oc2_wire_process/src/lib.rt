//! Peers over the system: the program that is started or that started this one, and a socket between them at 127.0.0.1. They tell
//! no bytes and no calls, only their counts of faults.
#![tactic(auto)]

pub mod peers;
mod port_line;
pub mod socket;

pub use peers::ProcessPeers;
pub use socket::SocketLink;
