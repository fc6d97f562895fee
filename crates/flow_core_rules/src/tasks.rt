// Tasks.
use crate::phases::Phase;

/// A path through a playbook (CACAO 2.0, section 4). Tasks, scopes and issues are numbered from 0 in the order in which
/// they are made.
#[derive(Clone, Copy, PartialEq, Eq)]
pub struct Task {
    /// The task that made it; None for the first task of a run.
    pub parent: Option<u32>,
    /// The number of its playbook among those of the run.
    pub book: u32,
    /// The number of its step in the playbook, whose steps stand in the order of their keys.
    pub step: u32,
    /// The scope in which it goes.
    pub scope: u32,
    /// The scope that its step opened; None before the step was entered, and at steps that open none.
    pub step_scope: Option<u32>,
    // (Before the phase: behind its moment of eight bytes this would take eight.)
    /// Whether it has gone to the playbook's `workflow_exception`.
    pub excepted: bool,
    pub phase: Phase,
}
