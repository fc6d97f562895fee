//! The two ends of a wire on sites in memory, played for worked cases: what each said, sent and left, in plain values; both against one
//! another; and whether what they left agrees. No function promises more than that it is safe and ends.
#![tactic(auto)]

mod around;
mod engine;
mod filters;
mod kept;
mod setups;
mod talks;
mod verdicts;

pub use around::{Around, Arounds, calm};
pub use engine::{Asked, Asking, Came, ask};
pub use filters::{Answering, Served, answer};
pub use kept::Kept;
pub use talks::{Talk, play_both};
pub use verdicts::{Verdict, alone, are_of, judge};
