// What a session does with its engine. These functions know nothing of the filters.
ghost use Rattle.std.specs.Prelude.{◌≡◌, ◌≢◌, ◌+◌, ◌<◌, ◌≤◌, ℕ, [], None, true, false, Ok, OnOk, IfErr};
ghost use Rattle.run_records.specs.Ranges.{last_moment};
ghost use Rattle.flow_world_steps.specs.EngineCalls.{IsReplyTo, IsWaiting, Sends};
ghost use Rattle.flow_world_steps.specs.OpenIssues.{puts_of};
ghost use Rattle.flow_core_rules.specs.declared.issues.Issue.{Issue};
ghost use Rattle.oc2_msg.specs.declared.answers.Answer.{Answer};
ghost use Rattle.flow_world_steps.specs.Sides.{AllPut, IsWhole};
ghost use Rattle.flow_world_steps.specs.Steps.{IsAddressed};
ghost use Rattle.flow_world_steps.specs.Worlds.{holds, owes, rests};
ghost use Rattle.flow_world_parts.specs.Leads.{AnyNotes, ArePutBelow, EngineDid, EngineTried, IsAtWork, KeepsFilters, MayAppend};

use crate::error::{WorldError, of_append};
use cacao_site::{Parcel, Site};
use flow_world_steps::Engine;

/// Says the line of the last record, which is owed.
pub fn say_last<S: Site>(engine: &Engine, site: &mut S) -> Result<(), WorldError>
    requires work { IsAtWork engine.now (S.view site.old) }
    ensures did { EngineDid result AnyNotes 0 (S.view site.old) engine.now owes (S.view site.new) engine.now }
    ensures work { OnOk result (IsAtWork engine.now (S.view site.new)) }
    ensures filters { OnOk result (KeepsFilters (S.view site.old) (S.view site.new)) }
    ensures now { OnOk result ((S.view site.new).clock.now ≡ (S.view site.old).clock.now) }
{
    let Ok(line) = engine.last_line() else {
        return Err(WorldError::Memory);
    };
    match site.say(line.as_slice()) {
        Ok(()) => Ok(()),
        Err(_) => Err(WorldError::Say),
    }
}

/// Appends the Begin of the run at the present moment where the journal is empty, and says its line; true exactly where it did.
pub fn begin<S: Site>(engine: &mut Engine, site: &mut S, now: u64) -> Result<bool, WorldError>
    requires whole { IsWhole engine.old (S.view site.old) }
    requires now { now ≡ (S.view site.old).clock.now }
    requires later { engine.old.history.seen.moment ≤ now }
    requires in_time { now ≤ last_moment }
    ensures tried { EngineTried result MayAppend (engine.old.history.records ≢ []) 1 (S.view site.old) engine.old rests
        (S.view site.new) engine.new }
    ensures work { OnOk result (IsAtWork engine.new (S.view site.new)) }
    ensures puts { OnOk result (engine.old.puts ≡ [] → engine.new.puts ≡ []) }
    ensures now { OnOk result ((S.view site.new).clock.now ≡ (S.view site.old).clock.now) }
{
    if engine.count() != 0 {
        return Ok(false);
    }
    let done = engine.start(site, now);
    engine.law();
    match done {
        Ok(()) => match say_last(engine, site) {
            Ok(()) => Ok(true),
            Err(error) => Err(error),
        },
        Err(error) => Err(of_append(error)),
    }
}

/// Puts the command of an issue at the present moment.
pub fn put_issue<S: Site>(
    engine: &mut Engine,
    site: &mut S,
    issue: u32,
    now: u64,
) -> Result<(), WorldError>
    requires work { IsAtWork engine.old (S.view site.old) }
    requires waiting { (it : Issue) × IsWaiting engine.old.history.seen issue it }
    requires now { now ≡ (S.view site.old).clock.now }
    ensures sends { OnOk result (Sends engine.old engine.new issue now (S.view site.old) (S.view site.new)) }
    ensures refused { IfErr result (λ error. (error ≡ WorldError.Memory) × (engine.new ≡ engine.old) × (site.new ≡ site.old)) }
    ensures work { OnOk result (IsAtWork engine.new (S.view site.new)) }
    ensures filters { OnOk result (KeepsFilters (S.view site.old) (S.view site.new)) }
    ensures now { OnOk result ((S.view site.new).clock.now ≡ (S.view site.old).clock.now) }
{
    let done = engine.send(site, issue, now);
    engine.law();
    match done {
        Ok(()) => Ok(()),
        Err(_) => Err(WorldError::Memory),
    }
}

/// Puts the command of an issue that was not put yet, where it waits for a filter; each lower one that does was put.
pub fn put_first<S: Site>(
    engine: &mut Engine,
    site: &mut S,
    issue: u32,
    now: u64,
) -> Result<(), WorldError>
    requires work { IsAtWork engine.old (S.view site.old) }
    requires now { now ≡ (S.view site.old).clock.now }
    requires put { ArePutBelow issue engine.old }
    requires unput { puts_of engine.old.puts issue ≡ None }
    ensures did { EngineDid result AnyNotes 0 (S.view site.old) engine.old rests (S.view site.new) engine.new }
    ensures put { OnOk result (ArePutBelow (issue + 1) engine.new) }
    ensures others { OnOk result ((other : ℕ) → other ≢ issue → puts_of engine.new.puts other ≡ puts_of engine.old.puts other) }
    ensures history { OnOk result (engine.new.history ≡ engine.old.history) }
    ensures work { OnOk result (IsAtWork engine.new (S.view site.new)) }
    ensures filters { OnOk result (KeepsFilters (S.view site.old) (S.view site.new)) }
    ensures now { OnOk result ((S.view site.new).clock.now ≡ (S.view site.old).clock.now) }
{
    if !engine.awaits(issue) {
        return Ok(());
    }
    match put_issue(engine, site, issue, now) {
        Ok(()) => Ok(()),
        Err(error) => Err(error),
    }
}

/// Puts the command of each issue that waits for a filter, in order of number.
pub fn put_waiting<S: Site>(engine: &mut Engine, site: &mut S, now: u64) -> Result<(), WorldError>
    requires work { IsAtWork engine.old (S.view site.old) }
    requires now { now ≡ (S.view site.old).clock.now }
    requires none { engine.old.puts ≡ [] }
    ensures did { EngineDid result AnyNotes 0 (S.view site.old) engine.old rests (S.view site.new) engine.new }
    ensures put { OnOk result (AllPut engine.new) }
    ensures work { OnOk result (IsAtWork engine.new (S.view site.new)) }
    ensures now { OnOk result ((S.view site.new).clock.now ≡ (S.view site.old).clock.now) }
{
    for issue in 0..engine.flow().issues() {
        match put_first(engine, site, issue, now) {
            Ok(()) => {}
            Err(error) => return Err(error),
        }
    }
    Ok(())
}

/// Appends the Reply of a parcel in hand, and says its line; false exactly where it is no final reply of this run from the filter of an issue
/// that waits.
pub fn take_reply<S: Site>(
    engine: &mut Engine,
    site: &mut S,
    parcel: &Parcel,
    now: u64,
) -> Result<bool, WorldError>
    requires work { IsAtWork engine.old (S.view site.old) }
    requires now { now ≡ (S.view site.old).clock.now }
    requires addressed { IsAddressed parcel.now }
    requires back { parcel.now.back ≡ true }
    ensures tried { (beat : ℕ) → EngineTried result MayAppend ((read : Answer) → IsReplyTo engine.old.history parcel.now read → ⊥) 1
        (S.view site.old) engine.old (holds beat parcel.now) (S.view site.new) engine.new }
    ensures put { OnOk result (AllPut engine.old → AllPut engine.new) }
    ensures work { OnOk result (IsAtWork engine.new (S.view site.new)) }
    ensures now { OnOk result ((S.view site.new).clock.now ≡ (S.view site.old).clock.now) }
{
    let done = engine.reply(site, parcel, now);
    engine.law();
    match done {
        Ok(true) => match say_last(engine, site) {
            Ok(()) => Ok(true),
            Err(error) => Err(error),
        },
        Ok(false) => Ok(false),
        Err(error) => Err(of_append(error)),
    }
}
