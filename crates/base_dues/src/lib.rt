//! Sets of numbers with moments, which contracts see as pairs in rising order.
//!
//! A number is that of a task or an issue, and a moment is in milliseconds. Numbers are dense, and each has at most one moment.
#![tactic(auto)]

mod dues;
mod laws;
mod least;
mod moments;

pub use dues::Dues;
pub use laws::dues_are_one;
