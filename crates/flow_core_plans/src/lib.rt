//! What each record of a run changes: the edits that are planned for it.
#![tactic(auto)]

mod answers;
mod branching;
mod entering;
mod going;
mod issuing;
mod joining;
mod planning;
mod walking;
mod writing;

pub use flow_core_values::{
    MOST_COMMAND, Place, Planned, Run, Setup, SetupError, Tables, accepted_again,
    accepted_is_runnable, place_in, setup_law,
};
pub use issuing::{Made, next_command, next_question, planned};
pub use planning::{begin, change, first_change, moment_of};
