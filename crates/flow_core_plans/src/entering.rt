// What steps do where they are entered (CACAO 2.0, section 4).
ghost use Rattle.std.specs.Prelude.{◌≡◌, ◌<◌, ◌∷◌, [], Some, IfOk, OnOk, IfSome, suc, length, option_map};
ghost use Rattle.std.specs.Option.{option_copied};
ghost use Rattle.std.specs.List.{flat_map};
ghost use Rattle.flow_core_rules.specs.Edits.{moves, makes};
ghost use Rattle.flow_core_rules.specs.Tasks.{child};
ghost use Rattle.flow_core_rules.specs.State.{value_shown};
ghost use Rattle.flow_core_rules.specs.Changes.{done, valued, binding, opening, inside, joining, called, entered};
ghost use Rattle.flow_core_plans.specs.Adding.{Adds, IsPlan};
ghost use Rattle.flow_core_plans.specs.Entered.{acting, ending, calling};
ghost use Rattle.flow_core_values.specs.Planned.{edits_of, AreDeclared};
ghost use Rattle.flow_core_values.specs.RunFacts.{IsWell, shown_of, here_of};
ghost use Rattle.flow_core_values.specs.Sights.{lists_seen, scope_seen};
ghost use Rattle.flow_core_values.specs.Stands.{Stands};

use crate::branching::{
    add_done, add_joining, add_opening, control, inside, next_scope, opened, parallel,
};
use crate::going::{child, in_phase};
use crate::writing::{add, bind, emptied};
use cacao_book::{Book, StepKind};
use cacao_json::Text;
use cacao_vars::{Name, Word};
use flow_core_rules::Phase;
use flow_core_values::{Planned, Run, Sight, Stand};
use std::alloc::{AllocError, Global};

/// A copy of a text, if there is one.
pub(crate) fn copy_of(text: Option<&Word>) -> Result<Option<Word>, AllocError>
    ensures { IfOk result (λ copy. copy ≡ option_copied text.entry) }
{
    match text {
        Some(word) => Ok(Some(word.clone()?)),
        None => Ok(None),
    }
}

// The number behind this one.
fn number_behind(number: u32) -> u32
    requires { number < 4_294_967_295 }
    ensures { result ≡ suc number }
{
    number + 1
}

// Adds that a name has in the scope with this number the text that it has as it is seen.
fn bind_seen(
    run: &Run,
    edits: &mut Vec<Planned>,
    sight: Sight<'_>,
    scope: u32,
    name: &Name,
) -> Result<(), AllocError>
    requires well { IsWell run.now }
    requires scope { sight.scope < length run.now.tables.opened.scopes }
    ensures { OnOk result (Adds edits.old.items edits.new.items (binding scope (name.now, value_shown (lists_seen run.now sight.entry) (scope_seen run.now sight.entry) name.now))) }
{
    let text = copy_of(run.value(sight, name))?;
    bind(edits, scope, name, text)?;
    Ok(())
}

// The same of each of these names.
fn bind_all(
    run: &Run,
    edits: &mut Vec<Planned>,
    sight: Sight<'_>,
    scope: u32,
    names: &[Name],
) -> Result<(), AllocError>
    requires well { IsWell run.now }
    requires scope { sight.scope < length run.now.tables.opened.scopes }
    ensures { OnOk result (Adds edits.old.items edits.new.items (flat_map (binding scope) (valued (lists_seen run.now sight.entry) (scope_seen run.now sight.entry) names.now))) }
{
    for name in names {
        bind_seen(run, edits, sight, scope, name)?;
    }
    Ok(())
}

// Adds that the task waits for a new one before the start of a playbook, in the scope with this number.
#[tactic(auto, using(crate::proofs::AddingLemmas::adds_then))]
fn add_root(
    run: &Run,
    edits: &mut Vec<Planned>,
    stand: Stand<'_>,
    number: u32,
    scope: u32,
    book: &Book,
) -> Result<(), AllocError>
    requires { IsWell run.now }
    ensures { let h = here_of (shown_of run.now) stand.entry in
        OnOk result (Adds edits.old.items edits.new.items (moves h.number (joining h) ∷ makes (child h number scope book.now.start) ∷ [])) }
{
    add_joining(run, edits, stand)?;
    let root = child(run, stand, number, scope, &book.start);
    add(edits, Planned::Makes(root))?;
    Ok(())
}

// The plan of a playbook-action that calls this playbook.
#[tactic(auto, using(crate::proofs::EnteredLemmas::plan_called, crate::proofs::StandLemmas::scope_there))]
fn called(
    run: &Run,
    alloc: Global,
    spare: Vec<Planned>,
    stand: Stand<'_>,
    in_args: &[Name],
    number: u32,
    book: &Book,
) -> Result<Vec<Planned>, AllocError>
    requires well { IsWell run.now }
    requires stands { Stands run.now stand }
    ensures { let h = here_of (shown_of run.now) stand.entry in
        IfOk result (λ plan. IsPlan plan.items (opening h ∷ called (inside h) (length h.seen.lists.scopes) in_args.now (number, book.now))) }
{
    let mut edits = emptied(spare);
    add_opening(run, alloc, &mut edits, stand)?;
    let edit = opened(alloc, None, &book.variables)?;
    add(&mut edits, edit)?;
    let inner = number_behind(next_scope(run));
    let sight = Sight {
        opening: Some(&stand.step.variables),
        scope: stand.task.scope,
    };
    bind_all(run, &mut edits, sight, inner, in_args)?;
    add_root(run, &mut edits, inside(run, stand), number, inner, book)?;
    Ok(edits)
}

// The plan of an action: it comes to its first place.
#[tactic(auto, using(crate::proofs::EnteredLemmas::plan_acting))]
fn act(
    run: &Run,
    alloc: Global,
    spare: Vec<Planned>,
    stand: Stand<'_>,
) -> Result<Vec<Planned>, AllocError>
    requires { IsWell run.now }
    ensures { IfOk result (λ plan. IsPlan plan.items (acting (here_of (shown_of run.now) stand.entry))) }
{
    let mut edits = emptied(spare);
    add_opening(run, alloc, &mut edits, stand)?;
    let task = inside(run, stand).task;
    let new = in_phase(task, Phase::Sending { place: 0 });
    let edit = Planned::Moves {
        task: stand.number,
        new,
    };
    add(&mut edits, edit)?;
    Ok(edits)
}

/// The plan of a task whose step is done, well or not, over the memory of a list.
#[tactic(auto, using(crate::proofs::EnteredLemmas::plan_of))]
pub(crate) fn done(
    run: &Run,
    spare: Vec<Planned>,
    stand: Stand<'_>,
    well: bool,
) -> Result<Vec<Planned>, AllocError>
    ensures { IfOk result (λ plan. IsPlan plan.items (done (here_of (shown_of run.now) stand.entry) well)) }
{
    let mut edits = emptied(spare);
    add_done(run, &mut edits, stand, well)?;
    Ok(edits)
}

// The plan of an end.
#[tactic(auto, using(crate::proofs::EnteredLemmas::plan_of))]
fn end(run: &Run, spare: Vec<Planned>, stand: Stand<'_>) -> Result<Vec<Planned>, AllocError>
    ensures { IfOk result (λ plan. IsPlan plan.items (ending (here_of (shown_of run.now) stand.entry))) }
{
    let mut edits = emptied(spare);
    let edit = Planned::Moves {
        task: stand.number,
        new: in_phase(stand.task, Phase::Ended { well: true }),
    };
    add(&mut edits, edit)?;
    Ok(edits)
}

// The plan of a playbook-action; None where the playbook is not given.
fn call(
    run: &Run,
    alloc: Global,
    spare: Vec<Planned>,
    stand: Stand<'_>,
    playbook: &Text,
    in_args: &[Name],
) -> Result<Option<Vec<Planned>>, AllocError>
    requires well { IsWell run.now }
    requires stands { Stands run.now stand }
    ensures edits { let h = here_of (shown_of run.now) stand.entry in
        IfOk result (λ o. option_map (λ plan. edits_of plan.items) o ≡ calling h playbook.now in_args.now) }
    ensures declared { IfOk result (λ o. IfSome o (λ plan. AreDeclared plan.items)) }
{
    let Some((number, book)) = run.setup.book_with(playbook) else {
        return Ok(None);
    };
    let plan = called(run, alloc, spare, stand, in_args, number, book)?;
    Ok(Some(plan))
}

/// The plan of a task that enters its step, over the memory of a list; None where it calls a playbook that is not given.
pub(crate) fn enter(
    run: &Run,
    alloc: Global,
    spare: Vec<Planned>,
    stand: Stand<'_>,
) -> Result<Option<Vec<Planned>>, AllocError>
    requires well { IsWell run.now }
    requires stands { Stands run.now stand }
    ensures edits { IfOk result (λ o. option_map (λ plan. edits_of plan.items) o ≡ entered (here_of (shown_of run.now) stand.entry) stand.entry.step.now.kind) }
    ensures declared { IfOk result (λ o. IfSome o (λ plan. AreDeclared plan.items)) }
{
    match &stand.step.kind {
        StepKind::Start => Ok(Some(done(run, spare, stand, true)?)),
        StepKind::End => Ok(Some(end(run, spare, stand)?)),
        StepKind::Action { .. } => Ok(Some(act(run, alloc, spare, stand)?)),
        StepKind::PlaybookAction {
            playbook,
            in_args,
            ..
        } => call(run, alloc, spare, stand, playbook, in_args.as_slice()),
        StepKind::Parallel { next } => {
            let plan = parallel(run, alloc, spare, stand, next.as_slice())?;
            Ok(Some(plan))
        }
        StepKind::If { .. } => Ok(Some(control(run, alloc, spare, stand)?)),
        StepKind::While { .. } => Ok(Some(control(run, alloc, spare, stand)?)),
        StepKind::Switch { .. } => Ok(Some(control(run, alloc, spare, stand)?)),
    }
}
