//! Which places of a directed graph are reached from given places along its edges.
//!
//! A graph of n places has the places 0 to n - 1. Its edges stand in a table with a row for each place: the places to which that
//! place leads.
#![tactic(auto)]

mod bits;
mod nesting;
mod nests;
mod places;
mod ranking;
mod returning;
mod reversing;
mod searching;

pub use bits::Bits;
pub use nesting::nests_of;
pub use nests::Nests;
pub use places::Places;
pub use returning::may_return;
pub use reversing::reversed;
pub use searching::{reached, reached_past_guards};
