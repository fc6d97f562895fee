// The limits of a record.
ghost use Rattle.std.specs.Prelude.{◌≡◌, ◌≤◌, length, count_by};
ghost use Rattle.std.specs.List.{list_any};
ghost use Rattle.flow_core_rules.specs.State.{Shown};
ghost use Rattle.flow_core_plans.specs.Planned.{edit_of, edits_of};
ghost use Rattle.flow_core.specs.Views.{is_makes, is_long_command, passed};

use crate::flow_errors::LimitKind;
use flow_core_plans::{MOST_COMMAND, Planned};

/// The most tasks of a run.
const MOST_TASKS: usize = 1_000_000;

/// The most edits for which room is taken at once; no record has so many.
pub(crate) const MOST_EDITS: usize = 1_000_000;

fn is_makes(edit: &Planned) -> bool
    ensures { result ≡ is_makes (edit_of edit.now) }
{
    matches!(edit, Planned::Makes(_))
}

fn is_long_command(edit: &Planned) -> bool
    ensures { result ≡ is_long_command (edit_of edit.now) }
{
    match edit {
        Planned::Issues(issue) => issue.bytes.len() > MOST_COMMAND,
        _ => false,
    }
}

/// How many tasks these edits make.
pub(crate) fn tasks_made(plan: &[Planned]) -> usize
    ensures tasks { result ≡ count_by (λ edit. is_makes (edit_of edit)) plan.now }
    ensures within { result ≤ length plan.now }
{
    let mut tasks = 0;
    for edit in plan {
        if is_makes(edit) {
            tasks += 1;
        }
    }
    tasks
}

/// Whether one of them is a command that is too long.
fn has_long_command(plan: &[Planned]) -> bool
    ensures { result ≡ list_any (λ edit. is_long_command (edit_of edit)) plan.now }
{
    plan.iter().any(|edit| is_long_command(edit))
}

/// The limit that a run of so many tasks passes by these edits.
pub(crate) fn passed(tasks: usize, plan: &[Planned]) -> Option<LimitKind>
    requires { tasks ≤ 1_000_000 }
    ensures { (s : Shown) → length s.lists.tasks ≡ tasks → result ≡ passed s (edits_of plan.now) }
{
    if tasks_made(plan) > MOST_TASKS - tasks {
        return Some(LimitKind::Tasks);
    }
    if has_long_command(plan) {
        Some(LimitKind::Command)
    } else {
        None
    }
}
