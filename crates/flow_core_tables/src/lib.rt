//! The tables of a run, and the edits that change them.
#![tactic(auto)]

mod opened;
mod planned;
mod present;
mod tables;
mod tables_edits;
mod tables_parts;

pub use flow_core_setup::{Setup, SetupError, accepted_again, accepted_is_runnable, setup_law};
pub use opened::Opened;
pub use planned::Planned;
pub use present::Present;
pub use tables::{Tables, Wait};
