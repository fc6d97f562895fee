//! What a session of a run begins with: its files are read, in order, and judged.
#![tactic(auto)]

mod judging;
mod ready;
mod run_parts;
mod run_texts;

pub use ready::{Ready, make_ready};
