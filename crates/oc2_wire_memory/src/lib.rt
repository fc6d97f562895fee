//! A link and peers in memory, which tell everything and fail by a plan.
#![tactic(auto)]

mod failing;
mod incoming;
mod link;
mod peers;
mod plan;

pub use link::MemoryLink;
pub use peers::MemoryPeers;
pub use plan::{MemoryLinks, Pieces};
