//! The records of a run again: those that the entries of an engine's file are, each as the line that its session said, or as an object of
//! JSON.
#![tactic(auto)]

mod beginning;
pub mod form;
mod laws;
mod line;
mod logging;
mod members;
mod object;
mod sender;
pub mod source;
mod telling;
mod told_run;

pub use beginning::begun;
pub use form::Form;
pub use laws::log_law;
pub use logging::log;
pub use source::Source;
pub use telling::take;
