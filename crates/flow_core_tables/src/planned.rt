// Edits of the tables of a run that were made ready.
use crate::present::Present;
use cacao_vars::{Name, Scope, Word};
use flow_core_rules::{Issue, IssuePhase, Task};

/// An edit of the tables, with all that it puts into them.
#[derive(Drop)]
pub enum Planned {
    /// A scope is opened; these are its declared texts.
    Opens { scope: Scope, texts: Present },
    /// A text is written to a name in this very scope.
    Writes { scope: u32, name: Name, worth: Word },
    /// A task is made.
    Makes(Task),
    /// The task stands so from now on.
    Moves { task: u32, new: Task },
    /// A command is sent, or an operator is asked.
    Issues(Issue),
    /// The issue waits no more.
    Closes { issue: u32, phase: IssuePhase },
    /// The run goes on with operators.
    Upgrades,
}
