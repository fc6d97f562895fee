// Walks: a task goes on from its step (CACAO 2.0, section 4.1).
ghost use Rattle.std.specs.Prelude.{◌≡◌, ◌+◌, IfOk, IfSome, nat_le, option_map};
ghost use Rattle.flow_core_rules.specs.Changes.{walk, walked};
ghost use Rattle.flow_core_values.specs.Planned.{edits_of, AreDeclared};
ghost use Rattle.flow_core_values.specs.RunFacts.{IsWell, shown_of, here_of};
ghost use Rattle.flow_core_values.specs.Stands.{Stands};

use crate::entering::enter;
use crate::joining::join;
use flow_core_rules::Phase;
use flow_core_values::{Planned, Run, Stand};
use std::alloc::{AllocError, Global};

// Whether a delay has run out.
fn is_due(since: u64, delay: u32, now: u64) -> bool
    ensures { result ≡ nat_le (since + delay) now }
{
    let delay = delay as u64;
    delay <= now && since <= now - delay
}

// The plan of a task that goes on, if it can.
fn walk_on(
    run: &Run,
    alloc: Global,
    spare: Vec<Planned>,
    stand: Stand<'_>,
) -> Result<Option<Vec<Planned>>, AllocError>
    requires well { IsWell run.now }
    requires stands { Stands run.now stand }
    ensures edits { IfOk result (λ o. option_map (λ plan. edits_of plan.items) o ≡ walked (here_of (shown_of run.now) stand.entry) stand.entry.task.phase) }
    ensures declared { IfOk result (λ o. IfSome o (λ plan. AreDeclared plan.items)) }
{
    match stand.task.phase {
        Phase::At { since } => {
            if is_due(since, stand.step.delay, stand.now) {
                enter(run, alloc, spare, stand)
            } else {
                Ok(None)
            }
        }
        Phase::Joining { from } => join(run, spare, stand, from),
        _ => Ok(None),
    }
}

/// The plan of a Walk of the task with this number at a moment, over the memory of a list; None where there is none.
#[tactic(auto, using(crate::proofs::StandLemmas::stands_here))]
pub(crate) fn walk(
    run: &Run,
    alloc: Global,
    spare: Vec<Planned>,
    now: u64,
    t: u32,
) -> Result<Option<Vec<Planned>>, AllocError>
    requires well { IsWell run.now }
    ensures edits { IfOk result (λ o. option_map (λ plan. edits_of plan.items) o ≡ walk (shown_of run.now) now t) }
    ensures declared { IfOk result (λ o. IfSome o (λ plan. AreDeclared plan.items)) }
{
    let Some(stand) = run.here(now, t) else {
        return Ok(None);
    };
    walk_on(run, alloc, spare, stand)
}
