// What steps do.
use crate::cases::Cases;
use crate::commands::StepCommands;
use crate::texts::Texts;
use cacao_json::Text;
use cacao_vars::Names;

/// What a step does (CACAO 2.0, section 4). `in_args` and `out_args` are names of variables, also where the playbook
/// has references.
#[derive(Drop)]
pub enum StepKind {
    /// The start of a playbook.
    Start,
    /// The end of a path.
    End,
    /// Commands, sent to the targets, or to the agent alone where there are none.
    Action {
        commands: StepCommands,
        agent: Text,
        targets: Texts,
        in_args: Names,
        out_args: Names,
    },
    /// A run of another playbook, named by its identifier and perhaps by its stamp `modified`.
    PlaybookAction {
        playbook: Text,
        version: Option<Text>,
        in_args: Names,
        out_args: Names,
    },
    /// Branches that run side by side.
    Parallel {
        next: Texts,
    },
    /// A branch where the condition is true, and perhaps one where it is not.
    If {
        condition: Text,
        on_true: Text,
        on_false: Option<Text>,
    },
    /// A branch that runs again as long as the condition is true.
    While {
        condition: Text,
        on_true: Text,
    },
    /// A branch chosen by the value of a variable.
    Switch {
        subject: Text,
        cases: Cases,
    },
}
