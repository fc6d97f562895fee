//! One session of the engine and the filters over a site: from files that an earlier crash may have left, to a close.
#![tactic(auto)]

mod laws;
mod whole;

pub use flow_world_parts::{Close, WorldError};
pub use laws::{closes_law, steady_law};
pub use whole::session;
