// Control steps: the tasks that they make for their branches, and wait for (CACAO 2.0, sections 4.7 to 4.10).
ghost use Rattle.std.specs.Prelude.{◌≡◌, ◌<◌, ◌∷◌, [], IfOk, OnOk, length};
ghost use Rattle.std.specs.Option.{option_copied, option_to_list};
ghost use Rattle.flow_core_rules.specs.Edits.{opens, moves};
ghost use Rattle.flow_core_rules.specs.Changes.{done, opening, joining, branched, controlled};
ghost use Rattle.flow_core_plans.specs.Adding.{Adds, IsPlan};
ghost use Rattle.flow_core_plans.specs.Entered.{within, taking, branches};
ghost use Rattle.flow_core_values.specs.Heads.{HasOneHead};
ghost use Rattle.flow_core_values.specs.Planned.{edit_of, IsDeclared};
ghost use Rattle.flow_core_values.specs.RunFacts.{IsWell, shown_of, here_of};
ghost use Rattle.flow_core_values.specs.Stands.{Stands};

use crate::going::{child, finish, in_phase};
use crate::writing::{add, emptied};
use cacao_json::Text;
use cacao_vars::{Scope, Vars};
use flow_core_rules::{Phase, Task};
use flow_core_values::{Planned, Present, Run, Sight, Stand};
use std::alloc::{AllocError, Global};

/// A scope with these declarations is opened.
pub(crate) fn opened(alloc: Global, parent: Option<u32>, vars: &Vars) -> Result<Planned, AllocError>
    ensures edit { IfOk result (λ edit. edit_of edit ≡ opens parent vars.now) }
    ensures declared { IfOk result (λ edit. IsDeclared edit) }
{
    let texts = Present::declared(alloc, vars)?;
    let vars = vars.clone()?;
    let scope = Scope { parent, vars };
    Ok(Planned::Opens { scope, texts })
}

// The number of the next scope.
pub(crate) fn next_scope(run: &Run) -> u32
    requires { IsWell run.now }
    ensures number { result ≡ length run.now.tables.opened.scopes }
    ensures within { result < 4_294_967_295 }
{
    run.tables.opened.len() as u32
}

// The number of the next task.
fn next_task(run: &Run) -> u32
    requires { IsWell run.now }
    ensures { result ≡ length run.now.tables.tasks.items }
{
    run.tables.tasks.len() as u32
}

// The task with the scope that its step opens.
pub(crate) fn inside<'a>(run: &Run, stand: Stand<'a>) -> Stand<'a>
    requires { IsWell run.now }
    ensures { here_of (shown_of run.now) result ≡ within (here_of (shown_of run.now) stand.entry) }
{
    let task = Task {
        step_scope: Some(next_scope(run)),
        ..stand.task
    };
    Stand { task, ..stand }
}

// The task that waits for those that are made next.
fn joining(run: &Run, stand: Stand<'_>) -> Task
    requires { IsWell run.now }
    ensures { result ≡ joining (here_of (shown_of run.now) stand.entry) }
{
    let from = next_task(run);
    in_phase(stand.task, Phase::Joining { from })
}

// Adds that the scope of the step is opened.
pub(crate) fn add_opening(
    run: &Run,
    alloc: Global,
    edits: &mut Vec<Planned>,
    stand: Stand<'_>,
) -> Result<(), AllocError>
    ensures { OnOk result (Adds edits.old.items edits.new.items (opening (here_of (shown_of run.now) stand.entry) ∷ [])) }
{
    let edit = opened(alloc, Some(stand.task.scope), &stand.step.variables)?;
    add(edits, edit)?;
    Ok(())
}

/// Adds that the task's step is done, well or not.
pub(crate) fn add_done(
    run: &Run,
    edits: &mut Vec<Planned>,
    stand: Stand<'_>,
    well: bool,
) -> Result<(), AllocError>
    ensures { OnOk result (Adds edits.old.items edits.new.items (done (here_of (shown_of run.now) stand.entry) well)) }
{
    let edit = Planned::Moves {
        task: stand.number,
        new: finish(run, stand, well),
    };
    add(edits, edit)?;
    Ok(())
}

/// Adds a task before the step with this key, in a scope.
pub(crate) fn add_child(
    run: &Run,
    edits: &mut Vec<Planned>,
    stand: Stand<'_>,
    scope: u32,
    key: &Text,
) -> Result<(), AllocError>
    ensures { OnOk result (Adds edits.old.items edits.new.items (branches (here_of (shown_of run.now) stand.entry) scope (key.now ∷ []))) }
{
    let edit = Planned::Makes(child(run, stand, stand.task.book, scope, key));
    add(edits, edit)?;
    Ok(())
}

// Adds that the task waits for those that are made next.
pub(crate) fn add_joining(
    run: &Run,
    edits: &mut Vec<Planned>,
    stand: Stand<'_>,
) -> Result<(), AllocError>
    requires { IsWell run.now }
    ensures { OnOk result (Adds edits.old.items edits.new.items (moves stand.entry.number (joining (here_of (shown_of run.now) stand.entry)) ∷ [])) }
{
    let edit = Planned::Moves {
        task: stand.number,
        new: joining(run, stand),
    };
    add(edits, edit)?;
    Ok(())
}

// Adds a task for each key.
fn add_children(
    run: &Run,
    edits: &mut Vec<Planned>,
    stand: Stand<'_>,
    scope: u32,
    keys: &[Text],
) -> Result<(), AllocError>
    ensures { OnOk result (Adds edits.old.items edits.new.items (branches (here_of (shown_of run.now) stand.entry) scope keys.now)) }
{
    for key in keys {
        add_child(run, edits, stand, scope, key)?;
    }
    Ok(())
}

// Adds what a step does that takes these branches.
#[tactic(auto, using(crate::proofs::AddingLemmas::adds_then))]
fn add_branches(
    run: &Run,
    edits: &mut Vec<Planned>,
    stand: Stand<'_>,
    scope: u32,
    keys: &[Text],
) -> Result<(), AllocError>
    requires { IsWell run.now }
    ensures { OnOk result (Adds edits.old.items edits.new.items (branched (here_of (shown_of run.now) stand.entry) scope keys.now)) }
{
    if keys.is_empty() {
        add_done(run, edits, stand, true)?;
        return Ok(());
    }
    add_joining(run, edits, stand)?;
    add_children(run, edits, stand, scope, keys)?;
    Ok(())
}

// Adds what a step does that takes this branch, or none.
#[tactic(auto, using(crate::proofs::AddingLemmas::adds_then))]
fn add_branch(
    run: &Run,
    edits: &mut Vec<Planned>,
    stand: Stand<'_>,
    scope: u32,
    head: Option<&Text>,
) -> Result<(), AllocError>
    requires { IsWell run.now }
    ensures { OnOk result (Adds edits.old.items edits.new.items (branched (here_of (shown_of run.now) stand.entry) scope (option_to_list (option_copied head.entry)))) }
{
    let Some(key) = head else {
        add_done(run, edits, stand, true)?;
        return Ok(());
    };
    add_joining(run, edits, stand)?;
    add_child(run, edits, stand, scope, key)?;
    Ok(())
}

// The plan of a control step that takes these branches.
#[tactic(auto, using(crate::proofs::EnteredLemmas::plan_taking))]
pub(crate) fn parallel(
    run: &Run,
    alloc: Global,
    spare: Vec<Planned>,
    stand: Stand<'_>,
    keys: &[Text],
) -> Result<Vec<Planned>, AllocError>
    requires { IsWell run.now }
    ensures { IfOk result (λ plan. IsPlan plan.items (taking (here_of (shown_of run.now) stand.entry) keys.now)) }
{
    let mut edits = emptied(spare);
    add_opening(run, alloc, &mut edits, stand)?;
    add_branches(run, &mut edits, inside(run, stand), next_scope(run), keys)?;
    Ok(edits)
}

// The plan of a control step that takes this branch, or none.
#[tactic(auto, using(crate::proofs::EnteredLemmas::plan_taking))]
pub(crate) fn single(
    run: &Run,
    alloc: Global,
    spare: Vec<Planned>,
    stand: Stand<'_>,
    head: Option<&Text>,
) -> Result<Vec<Planned>, AllocError>
    requires { IsWell run.now }
    ensures { IfOk result (λ plan. IsPlan plan.items (taking (here_of (shown_of run.now) stand.entry) (option_to_list (option_copied head.entry)))) }
{
    let mut edits = emptied(spare);
    add_opening(run, alloc, &mut edits, stand)?;
    add_branch(run, &mut edits, inside(run, stand), next_scope(run), head)?;
    Ok(edits)
}

/// The plan of a control step but `parallel`.
#[tactic(auto, using(crate::proofs::StandLemmas::scope_there))]
pub(crate) fn control(
    run: &Run,
    alloc: Global,
    spare: Vec<Planned>,
    stand: Stand<'_>,
) -> Result<Vec<Planned>, AllocError>
    requires well { IsWell run.now }
    requires stands { Stands run.now stand }
    requires one { HasOneHead stand.step.now.kind }
    ensures { IfOk result (λ plan. IsPlan plan.items (controlled (here_of (shown_of run.now) stand.entry) stand.entry.step.now.kind)) }
{
    let sight = Sight {
        opening: Some(&stand.step.variables),
        scope: stand.task.scope,
    };
    let head = run.head(stand, sight);
    let plan = single(run, alloc, spare, stand, head)?;
    Ok(plan)
}
