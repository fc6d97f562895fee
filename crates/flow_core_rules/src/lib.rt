//! What a run of the workflow is: its state, what each record changes, which lists of records are runs, and the lines
//! that tell of them. The definitions stand in `specs/`; here are the types of the state, and the laws.
#![tactic(auto)]

mod issues;
mod laws;
mod moves;
mod phases;
mod tasks;

pub use issues::{Issue, IssuePhase};
pub use laws::{
    conditions_are_spelled, earlier_runs_are_runs, ended_is_all_over, ended_is_over,
    issues_have_records, moves_are_in_range, moves_have_records, one_next_state,
    record_lines_differ, records_keep_issues, runs_are_sane, runs_go_on, sane_always_waits,
    sane_is_not_stuck, shown_alone, waiting_can_end,
};
pub use moves::Move;
pub use phases::Phase;
pub use tasks::Task;
