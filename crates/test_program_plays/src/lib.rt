//! The program on a shelf and a site in memory, called for worked cases: what it answered in plain values. No function promises more
//! than that it is safe and ends.
#![tactic(auto)]

mod program;
mod rehearsals;
mod scene;

pub use program::{Answer, Program};
pub use rehearsals::{Rehearsed, count_rehearsed, text_rehearsed};
pub use scene::Scene;
