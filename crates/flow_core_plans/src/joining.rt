// What a step does once the tasks that it waits for have ended (CACAO 2.0, section 4).
ghost use Rattle.std.specs.Prelude.{◌≡◌, ◌<◌, ◌==◌, IfOk, OnOk, IfSome, length, option_map};
ghost use Rattle.std.specs.List.{list_all, list_any, flat_map};
ghost use Rattle.flow_core_rules.specs.declared.phases.Phase.TheVariants as phase;
ghost use Rattle.flow_core_rules.specs.State.{value_shown};
ghost use Rattle.flow_core_rules.specs.Changes.{done, valued, written, children, has_ended, has_failed, rejoined, joined, walked};
ghost use Rattle.flow_core_plans.specs.Adding.{Adds, IsPlan};
ghost use Rattle.flow_core_plans.specs.Joined.{wanted, turning, returning};
ghost use Rattle.flow_core_values.specs.Planned.{edits_of, AreDeclared};
ghost use Rattle.flow_core_values.specs.RunFacts.{IsWell, shown_of, here_of};
ghost use Rattle.flow_core_values.specs.Stands.{Stands};
ghost use Rattle.flow_core_values.specs.TableFacts.{lists_of};
ghost use Rattle.flow_core_values.specs.Truths.{condition_in};

use crate::branching::{add_child, add_done};
use crate::entering::{copy_of, done};
use crate::writing::{emptied, write};
use cacao_book::StepKind;
use cacao_json::Text;
use cacao_vars::Name;
use flow_core_values::{Planned, Run, Sight, Stand, Wait};
use std::alloc::AllocError;

// How many of the tasks that this one waits for have not ended, and whether one of them has failed.
fn wait(run: &Run, stand: Stand<'_>, from: u32) -> Wait
    requires well { IsWell run.now }
    requires stands { Stands run.now stand }
    requires joins { stand.task.phase ≡ phase.Joining from }
    ensures open { (result.open == 0) ≡ list_all (λ task. has_ended task.phase) (children (lists_of run.now.tables) stand.entry.number from) }
    ensures failed { result.failed ≡ list_any (λ task. has_failed task.phase) (children (lists_of run.now.tables) stand.entry.number from) }
{
    run.tables.waits[stand.number as usize]
}

// Adds that a name gets, seen from a scope, what it has in another one.
fn write_seen(
    run: &Run,
    edits: &mut Vec<Planned>,
    from: u32,
    scope: u32,
    name: &Name,
) -> Result<(), AllocError>
    requires well { IsWell run.now }
    requires from { from < length run.now.tables.opened.scopes }
    requires scope { scope < length run.now.tables.opened.scopes }
    ensures { OnOk result (Adds edits.old.items edits.new.items (written (lists_of run.now.tables) scope (name.now, value_shown (lists_of run.now.tables) from name.now))) }
{
    let sight = Sight {
        opening: None,
        scope: from,
    };
    let text = copy_of(run.value(sight, name))?;
    write(run, edits, scope, name, text)?;
    Ok(())
}

// The same of each of these names.
fn write_all(
    run: &Run,
    edits: &mut Vec<Planned>,
    from: u32,
    scope: u32,
    names: &[Name],
) -> Result<(), AllocError>
    requires well { IsWell run.now }
    requires from { from < length run.now.tables.opened.scopes }
    requires scope { scope < length run.now.tables.opened.scopes }
    ensures { OnOk result (Adds edits.old.items edits.new.items (flat_map (written (lists_of run.now.tables) scope) (valued (lists_of run.now.tables) from names.now))) }
{
    for name in names {
        write_seen(run, edits, from, scope, name)?;
    }
    Ok(())
}

// Adds that the names get, seen from a scope, what they have where the task with this number goes.
#[tactic(auto, using(crate::proofs::StandLemmas::root_scope_there))]
fn write_back(
    run: &Run,
    edits: &mut Vec<Planned>,
    from: u32,
    scope: u32,
    names: &[Name],
) -> Result<(), AllocError>
    requires well { IsWell run.now }
    requires scope { scope < length run.now.tables.opened.scopes }
    ensures { OnOk result (Adds edits.old.items edits.new.items (wanted (lists_of run.now.tables) from scope names.now)) }
{
    let Some(root) = run.task(from) else {
        return Ok(());
    };
    write_all(run, edits, root.scope, scope, names)?;
    Ok(())
}

// The plan of a playbook-action whose playbook has ended well.
fn rejoin_call(
    run: &Run,
    spare: Vec<Planned>,
    stand: Stand<'_>,
    from: u32,
    scope: u32,
    out_args: &[Name],
) -> Result<Vec<Planned>, AllocError>
    requires well { IsWell run.now }
    requires scope { scope < length run.now.tables.opened.scopes }
    ensures { IfOk result (λ plan. IsPlan plan.items (returning (here_of (shown_of run.now) stand.entry) from scope out_args.now)) }
{
    let mut edits = emptied(spare);
    write_back(run, &mut edits, from, scope, out_args)?;
    add_done(run, &mut edits, stand, true)?;
    Ok(edits)
}

// The plan of a while-condition whose turn has ended well.
fn rejoin_while(
    run: &Run,
    spare: Vec<Planned>,
    stand: Stand<'_>,
    scope: u32,
    on_true: &Text,
) -> Result<Vec<Planned>, AllocError>
    requires well { IsWell run.now }
    requires stands { Stands run.now stand }
    requires scope { scope < length run.now.tables.opened.scopes }
    ensures { IfOk result (λ plan. IsPlan plan.items (turning (here_of (shown_of run.now) stand.entry) scope (condition_in stand.entry.step.now.kind) on_true.now)) }
{
    let sight = Sight {
        opening: None,
        scope,
    };
    if !run.is_true(stand, sight) {
        return done(run, spare, stand, true);
    }
    let mut edits = emptied(spare);
    add_child(run, &mut edits, stand, scope, on_true)?;
    Ok(edits)
}

// The plan of a step whose branches have ended well.
fn rejoin(
    run: &Run,
    spare: Vec<Planned>,
    stand: Stand<'_>,
    from: u32,
    scope: u32,
) -> Result<Vec<Planned>, AllocError>
    requires well { IsWell run.now }
    requires stands { Stands run.now stand }
    requires scope { scope < length run.now.tables.opened.scopes }
    ensures { IfOk result (λ plan. IsPlan plan.items (rejoined (here_of (shown_of run.now) stand.entry) from scope stand.entry.step.now.kind)) }
{
    match &stand.step.kind {
        StepKind::While { on_true, .. } => rejoin_while(run, spare, stand, scope, on_true),
        StepKind::PlaybookAction { out_args, .. } => {
            rejoin_call(run, spare, stand, from, scope, out_args.as_slice())
        }
        _ => done(run, spare, stand, true),
    }
}

// The plan of a step that waits for its branches; None while one of them goes on.
fn joined(
    run: &Run,
    spare: Vec<Planned>,
    stand: Stand<'_>,
    from: u32,
    scope: u32,
) -> Result<Option<Vec<Planned>>, AllocError>
    requires well { IsWell run.now }
    requires stands { Stands run.now stand }
    requires joins { stand.task.phase ≡ phase.Joining from }
    requires scope { scope < length run.now.tables.opened.scopes }
    ensures edits { let h = here_of (shown_of run.now) stand.entry in
        IfOk result (λ o. option_map (λ plan. edits_of plan.items) o ≡ joined h from scope (children h.seen.lists h.number from)) }
    ensures declared { IfOk result (λ o. IfSome o (λ plan. AreDeclared plan.items)) }
{
    let wait = wait(run, stand, from);
    if wait.open != 0 {
        return Ok(None);
    }
    if wait.failed {
        return Ok(Some(done(run, spare, stand, false)?));
    }
    Ok(Some(rejoin(run, spare, stand, from, scope)?))
}

/// The plan of a task that joins; None while one of those that it waits for goes on, and where it has no step scope.
#[tactic(auto, using(crate::proofs::StandLemmas::step_scope_there))]
pub(crate) fn join(
    run: &Run,
    spare: Vec<Planned>,
    stand: Stand<'_>,
    from: u32,
) -> Result<Option<Vec<Planned>>, AllocError>
    requires well { IsWell run.now }
    requires stands { Stands run.now stand }
    requires joins { stand.task.phase ≡ phase.Joining from }
    ensures edits { IfOk result (λ o. option_map (λ plan. edits_of plan.items) o ≡ walked (here_of (shown_of run.now) stand.entry) (phase.Joining from)) }
    ensures declared { IfOk result (λ o. IfSome o (λ plan. AreDeclared plan.items)) }
{
    let Some(scope) = stand.task.step_scope else {
        return Ok(None);
    };
    joined(run, spare, stand, from, scope)
}
