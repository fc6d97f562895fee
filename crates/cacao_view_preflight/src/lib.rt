//! What is to be known before a run: what `run` would refuse before its first record, and what it would take that is likely to be a mistake.
#![tactic(auto)]

mod agents;
mod commands;
mod constants;
mod flight;
mod inner_variables;
mod laws;
mod members;
mod name_set;
mod opens;
mod refusals;
mod settled;
mod step_members;
mod steps;
mod sure;
mod variables;
mod warning_lines;

pub use flight::preflight;
pub use laws::sure_answers_law;
