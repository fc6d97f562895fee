//! Sites in memory, with the journals and the filters on them, called by rows: what each row asks, and its answer as bytes. No function
//! promises more than that it is safe and ends, but those that say what a call of a journal or of a filter requires.
#![tactic(auto)]

mod appends;
mod bounds;
mod commands;
mod disks;
mod filters;
mod images;
mod journals;
mod plans;

pub use disks::Disks;
