//! A run that survives crashes: each record is durable before the run goes on, and a command leaves only once its Send is.
#![tactic(auto)]

mod engine;
mod open_puts;
mod puts;
mod records;
mod sending;

pub use engine::Engine;
pub use flow_engine_history::{EngineError, LimitKind, accepted_is_runnable};
pub use puts::Puts;
