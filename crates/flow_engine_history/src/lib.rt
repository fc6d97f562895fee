//! The history of a run: its records in a file, each durable before the run goes on, how the run stands after them, and their lines.
#![tactic(auto)]

mod appending;
mod error;
mod history;
mod laws;
mod lines;
mod opening;

pub use error::EngineError;
pub use flow_core::{Flow, LimitKind, Setup, accepted_is_runnable};
pub use flow_core_rules::Move;
pub use history::History;
pub use laws::opening_law;
pub use opening::FIRST_GATE;
