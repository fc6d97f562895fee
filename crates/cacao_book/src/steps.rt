// Steps of a playbook.
use crate::step_kinds::StepKind;
use cacao_ids::Id;
use cacao_json::Text;
use cacao_vars::Vars;

/// A step of a playbook (CACAO 2.0, section 4.1). Links are keys of steps as the playbook names them: they may name
/// no step.
pub struct Step {
    pub key: Id,
    /// How long to wait before it, in milliseconds.
    pub delay: u32,
    /// How long its commands may take, in milliseconds; 60,000 where the playbook states none.
    pub timeout: u32,
    pub variables: Vars,
    /// The step that follows in any case (`on_completion`).
    pub completion: Option<Text>,
    /// The step that follows a success (`on_success`).
    pub success: Option<Text>,
    /// The step that follows a failure (`on_failure`).
    pub failure: Option<Text>,
    pub kind: StepKind,
}

// (by hand, and not by derive: so a drop is one call in the proofs of all who own one)
impl Drop for Step {
    fn drop(self) {
        let Self {
            key: _,
            delay: _,
            timeout: _,
            variables: _,
            completion: _,
            success: _,
            failure: _,
            kind: _,
        } = self;
    }
}
