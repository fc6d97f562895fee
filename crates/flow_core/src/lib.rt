//! The workflow: a run that goes on from record to record.
#![tactic(auto)]

mod bounding;
mod coming;
mod flow;
mod flow_errors;
mod limits;
mod moves;
mod replaying;
mod report;
mod telling;

pub use base_dues::Dues;
pub use flow::Flow;
pub use flow_core_plans::{
    Setup, SetupError, accepted_again, accepted_is_runnable, moment_of, setup_law,
};
pub use flow_core_rules::Move;
pub use flow_errors::{FlowError, LimitKind};
