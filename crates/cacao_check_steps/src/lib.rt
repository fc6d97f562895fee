//! What is read of the steps of CACAO 2.0 playbooks: the places to which their links lead, their parts by kind, their conditions, switches and
//! contents, the playbooks that they call, and the names that they use.
#![tactic(auto)]

mod links;
mod parts;
mod reading;
mod step_parts;
mod uses;

pub use links::start_row;
pub use parts::Parts;
pub use reading::read_steps;
pub use step_parts::{
    call_of, commands_of, condition_of, in_args_of, is_action, is_manual, out_args_of, subject_of,
    version_of,
};
pub use uses::used_names;
