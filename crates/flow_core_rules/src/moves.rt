// The moves that a run makes by itself.

/// What a run can do next by itself.
#[derive(Clone, Copy, PartialEq, Eq)]
pub enum Move {
    /// The task goes on.
    Walk { task: u32 },
    /// The task sends a command to a filter.
    Send { task: u32 },
    /// The task asks an operator.
    Ask { task: u32 },
    /// The run goes on with operators from now on.
    Upgrade,
}
