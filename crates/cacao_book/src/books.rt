// Playbooks.
use crate::step_lists::Steps;
use crate::texts::Texts;
use cacao_ids::{Id, Stamp};
use cacao_json::Text;
use cacao_vars::Vars;

/// A playbook as far as it is checked and run (CACAO 2.0, section 3.1).
pub struct Book {
    /// Its identifier, of the object type `playbook`.
    pub id: Id,
    /// When it was last changed.
    pub modified: Stamp,
    /// The key of the step at which it starts, as the playbook names it: it may name no step.
    pub start: Text,
    /// The key of the step that follows a failure of the whole run, likewise.
    pub exception: Option<Text>,
    pub variables: Vars,
    /// The names of its agents, and behind them those of its targets, each in the order of their bytes.
    pub agents: Texts,
    /// Its steps in the order of the bytes of their keys.
    pub steps: Steps,
}

// (by hand, and not by derive: so a drop is one call in the proofs of all who own one)
impl Drop for Book {
    fn drop(self) {
        let Self {
            id: _,
            modified: _,
            start: _,
            exception: _,
            variables: _,
            agents: _,
            steps: _,
        } = self;
    }
}
