//! One session as a command holds it: how the call ends by what the session answers.
#![tactic(auto)]

mod holding;

pub use holding::{close_end, error_end, hold, limit_of};
