//! Engines on sites in memory, played for worked cases: calls of an engine, and what came of them in plain values. No function of a
//! play promises more than that it is safe and ends.
#![tactic(auto)]

mod call;
mod calls;
mod lives;
mod play;

pub use call::{Answer, Call};
pub use lives::Life;
pub use play::{EnginePlay, Played};
