//! Two processes over a socket, each end of the wire at work: the engine's end, which asks, and the filters' end, which answers.
#![tactic(auto)]

mod commands;
mod engine_end;
mod error;
mod filters_end;
mod handing;
mod reply_wire;
mod tally;

pub use engine_end::serve_engine;
pub use error::WireError;
pub use filters_end::serve_agent;
pub use flow_world_parts::Close as WireClose;
