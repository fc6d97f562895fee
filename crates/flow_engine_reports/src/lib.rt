//! What the program says of the run in the engine's file.
#![tactic(auto)]

mod beginning;
mod error;
mod lines;
mod replaying;
mod reports;

pub use error::ReportError;
pub use lines::next_line;
pub use reports::run_report;
