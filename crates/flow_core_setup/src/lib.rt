//! What a run is given: playbooks and bindings, read and judged.
#![tactic(auto)]

mod bindings;
mod hints;
mod setup;
mod setup_errors;
mod setup_laws;
mod setup_reading;

pub use setup::{Setup, setup_law};
pub use setup_errors::SetupError;
pub use setup_laws::{accepted_again, accepted_is_runnable};
