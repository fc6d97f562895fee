//! Whether the files of a run agree: the journal of the run, and the acts of the filters that it sent commands to.
//!
//! The bytes alone are looked at, by the definitions that sessions keep. No engine and no filter is opened.
#![tactic(auto)]

mod acting;
mod answering;
mod auditing;
pub mod files;
mod reading;
mod replying;
mod running;
pub mod verdict;

pub use auditing::audit;
pub use files::Files17;
pub use verdict::{AuditError, Verdict17};
