//! What joins two processes: a link that carries bytes both ways, and the peers of a program, by which it comes to a link.
//!
//! Each is a trait with its meaning in `specs/`. `oc2_wire_memory` has types in memory that tell everything and fail by a
//! plan, and `oc2_wire_process` adapters over the system that tell no bytes.
#![tactic(auto)]

pub mod link;
pub mod peers;

pub use link::Link;
pub use peers::Peers;
