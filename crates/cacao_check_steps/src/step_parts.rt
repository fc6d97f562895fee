// What a step has, by its kind. No call here takes memory.
ghost use Rattle.std.specs.Prelude.{◌≡◌, ◌≤◌, IfSome, length};
ghost use Rattle.std.specs.Option.{option_copied};
ghost use Rattle.cacao_book.specs.Steps.{KindKeepsLimits};
ghost use Rattle.cacao_check_steps.specs.Uses.{commands_of, in_args_of, out_args_of, condition_of, subject_of, call_of, version_of, is_action, is_manual};

use cacao_book::{StepCommand, StepKind};
use cacao_json::Text;
use cacao_vars::Name;

/// The commands of an action; none of another step.
pub fn commands_of(kind: &StepKind) -> &[StepCommand]
    ensures { result.now ≡ commands_of kind.now }
{
    match kind {
        StepKind::Action { commands, .. } => commands.as_slice(),
        _ => &[],
    }
}

/// The names of the arguments of an action or a playbook-action.
pub fn in_args_of(kind: &StepKind) -> &[Name]
    ensures { result.now ≡ in_args_of kind.now }
{
    match kind {
        StepKind::Action { in_args, .. } => in_args.as_slice(),
        StepKind::PlaybookAction { in_args, .. } => in_args.as_slice(),
        _ => &[],
    }
}

/// The names of the results of an action or a playbook-action.
pub fn out_args_of(kind: &StepKind) -> &[Name]
    ensures names { result.now ≡ out_args_of kind.now }
    ensures few { KindKeepsLimits kind.now → length result.now ≤ 64 }
{
    match kind {
        StepKind::Action { out_args, .. } => out_args.as_slice(),
        StepKind::PlaybookAction { out_args, .. } => out_args.as_slice(),
        _ => &[],
    }
}

/// The text of the condition of an if-condition or a while-condition.
pub fn condition_of(kind: &StepKind) -> Option<&Text>
    requires { KindKeepsLimits kind.now }
    ensures text { option_copied result ≡ condition_of kind.now }
    ensures short { IfSome result (λ text. length text.now ≤ 2048) }
{
    match kind {
        StepKind::If { condition, .. } => Some(condition),
        StepKind::While { condition, .. } => Some(condition),
        _ => None,
    }
}

/// The text of what a switch-condition looks at.
pub fn subject_of(kind: &StepKind) -> Option<&Text>
    ensures { option_copied result ≡ subject_of kind.now }
{
    match kind {
        StepKind::Switch { subject, .. } => Some(subject),
        _ => None,
    }
}

/// The identifier of the playbook that a playbook-action calls.
pub fn call_of(kind: &StepKind) -> Option<&Text>
    ensures { option_copied result ≡ call_of kind.now }
{
    match kind {
        StepKind::PlaybookAction { playbook, .. } => Some(playbook),
        _ => None,
    }
}

/// The stamp that a playbook-action asks of the called playbook.
pub fn version_of(kind: &StepKind) -> Option<&Text>
    ensures { option_copied result ≡ version_of kind.now }
{
    match kind {
        StepKind::PlaybookAction { version, .. } => version.as_ref(),
        _ => None,
    }
}

/// Whether a step is an action.
pub fn is_action(kind: &StepKind) -> bool
    ensures { result ≡ is_action kind.now }
{
    match kind {
        StepKind::Action { .. } => true,
        _ => false,
    }
}

/// Whether a command is for an operator.
pub fn is_manual(command: &StepCommand) -> bool
    ensures { result ≡ is_manual command.now }
{
    command.kind.text() == "manual"
}
