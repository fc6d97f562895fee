//! A simulated packet filter that survives crashes: it acts at most once on the command of an issue, keeps each act in a
//! journal before its reply leaves, and answers a command that comes again from its act.
#![tactic(auto)]

mod acting;
pub mod actuator;
pub mod error;
mod handling;
mod opening;

pub use actuator::Actuator;
pub use error::ActError;
pub use slpf_actuator_acts::damage_law;
