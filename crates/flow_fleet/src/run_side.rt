// What a fleet does with one of its engines. These functions know nothing of the other runs, nor of the filters.
ghost use Rattle.std.specs.Prelude.{◌≡◌, ◌≢◌, ◌+◌, ◌≤◌, ◌++◌, ℕ, [], None, Some, true, false, Ok, OnOk, IfErr, IfOk};
ghost use Rattle.run_records.specs.Ranges.{last_moment};
ghost use Rattle.oc2_msg.specs.declared.answers.Answer.{Answer};
ghost use Rattle.base_dues.specs.Pairs.{IsFirstBy};
ghost use Rattle.flow_core_rules.specs.Moves.{enabled_move};
ghost use Rattle.flow_core_rules.specs.declared.issues.Issue.{Issue};
ghost use Rattle.flow_engine.specs.EngineCalls.{IsReplyTo, IsWaiting, Sends, put_deadline};
ghost use Rattle.flow_engine.specs.OpenIssues.{IsNextPut, puts_of};
ghost use Rattle.flow_world_steps.specs.Sides.{AllPut, IsWhole};
ghost use Rattle.flow_world_steps.specs.Steps.{IsAddressed};
ghost use Rattle.flow_world_steps.specs.Worlds.{holds, looked, owes, rests};
ghost use Rattle.flow_world_parts.specs.Leads.{ArePutBelow, IsAtWork};
ghost use Rattle.flow_fleet_laws.specs.Speeches.{head_of};
ghost use Rattle.flow_fleet_laws.specs.Views.{seen_from};
ghost use Rattle.flow_fleet_steps.specs.Errors.{fleet_refusal};
ghost use Rattle.flow_world_parts.specs.Errors.{MayRefuseAppend, append_refusal};
ghost use Rattle.flow_fleet.specs.Leads.{Below, IsNumberedLine, LeavesRest, MayAppend, MayExpire, MayMove, MayResend, Owing, RunDid, RunTried, next_turn, same_turn};

use crate::seen::{expire_at, reply_at, send_at, start_at, step_at};
use base_lines::{add, add_decimal};
use cacao_site::{Parcel, Rack};
use flow_engine::{Engine, EngineError};
use flow_fleet_steps::FleetError;
use flow_world_parts::error::of_append;
use std::alloc::{AllocError, Global};

/// A line with the number of its run before it, and a space.
fn numbered(alloc: Global, run: u64, line: &[u8]) -> Result<Vec<u8>, AllocError>
    ensures { IfOk result (λ text. text.items ≡ head_of run ++ line.now) }
{
    let mut text = Vec::new(alloc);
    add_decimal(&mut text, run)?;
    add(&mut text, b" ")?;
    add(&mut text, line)?;
    Ok(text)
}

/// The refusal of a fleet one of whose engines refused to append a record.
fn of_engine(error: EngineError) -> FleetError
    requires { MayRefuseAppend error }
    ensures { result ≡ fleet_refusal 0 0 (append_refusal error) }
{
    FleetError::of(0, 0, of_append(error))
}

/// The line of the last record of an engine, with the number of its run before it, and a space.
fn last_line(alloc: Global, engine: &Engine) -> Result<Vec<u8>, AllocError>
    requires { engine.now.history.records ≢ [] }
    ensures { IfOk result (λ text. IsNumberedLine engine.now text.items) }
{
    let line = engine.last_line()?;
    numbered(alloc, engine.flow().run(), line.as_slice())
}

/// Says the line of the last record, which is owed.
pub(crate) fn say_last<R: Rack>(
    alloc: Global,
    engine: &Engine,
    rack: &mut R,
    place: u8,
) -> Result<(), FleetError>
    requires work { IsAtWork engine.now (seen_from place (R.view rack.old)) }
    ensures did { RunDid result (Owing place) 0 same_turn place (R.view rack.old) engine.now owes (R.view rack.new) engine.now }
    ensures work { OnOk result (IsAtWork engine.now (seen_from place (R.view rack.new))) }
    ensures rest { OnOk result (LeavesRest place (R.view rack.old) (R.view rack.new)) }
{
    let Ok(text) = last_line(alloc, engine) else {
        return Err(FleetError::Memory);
    };
    match rack.say(text.as_slice()) {
        Ok(()) => Ok(()),
        Err(_) => Err(FleetError::Say),
    }
}

/// Appends the Begin of the run at a place, whose journal is empty, and says its line.
pub(crate) fn begin<R: Rack>(
    alloc: Global,
    engine: &mut Engine,
    rack: &mut R,
    place: u8,
    now: u64,
) -> Result<(), FleetError>
    requires place { place ≤ 15 }
    requires empty { engine.old.history.records ≡ [] }
    requires whole { IsWhole engine.old (seen_from place (R.view rack.old)) }
    requires now { now ≡ (R.view rack.old).clock.now }
    requires later { engine.old.history.seen.moment ≤ now }
    requires in_time { now ≤ last_moment }
    ensures did { RunDid result (MayAppend place) 1 same_turn place (R.view rack.old) engine.old rests (R.view rack.new) engine.new }
    ensures work { OnOk result (IsAtWork engine.new (seen_from place (R.view rack.new))) }
    ensures puts { OnOk result (engine.old.puts ≡ [] → engine.new.puts ≡ []) }
    ensures rest { OnOk result (LeavesRest place (R.view rack.old) (R.view rack.new)) }
{
    let done = start_at(engine, rack, place, now);
    engine.law();
    match done {
        Ok(()) => say_last(alloc, engine, rack, place),
        Err(error) => Err(of_engine(error)),
    }
}

/// Puts the command of an issue of the run at a place.
pub(crate) fn put_issue<R: Rack>(
    engine: &mut Engine,
    rack: &mut R,
    place: u8,
    issue: u32,
    now: u64,
) -> Result<(), FleetError>
    requires place { place ≤ 15 }
    requires work { IsAtWork engine.old (seen_from place (R.view rack.old)) }
    requires waiting { (it : Issue) × IsWaiting engine.old.history.seen issue it }
    requires now { now ≡ (R.view rack.old).clock.now }
    ensures sends { OnOk result (Sends engine.old engine.new issue now (seen_from place (R.view rack.old)) (seen_from place (R.view rack.new))) }
    ensures refused { IfErr result (λ error. (error ≡ FleetError.Memory) × (engine.new ≡ engine.old) × (R.view rack.new ≡ R.view rack.old)) }
    ensures work { OnOk result (IsAtWork engine.new (seen_from place (R.view rack.new))) }
    ensures rest { OnOk result (LeavesRest place (R.view rack.old) (R.view rack.new)) }
{
    let done = send_at(engine, rack, place, issue, now);
    engine.law();
    match done {
        Ok(()) => Ok(()),
        Err(_) => Err(FleetError::Memory),
    }
}

/// Puts the command of an issue that was not put yet, where it waits for a filter; each lower one that does was put.
pub(crate) fn put_first<R: Rack>(
    engine: &mut Engine,
    rack: &mut R,
    place: u8,
    issue: u32,
    now: u64,
) -> Result<(), FleetError>
    requires place { place ≤ 15 }
    requires work { IsAtWork engine.old (seen_from place (R.view rack.old)) }
    requires now { now ≡ (R.view rack.old).clock.now }
    requires put { ArePutBelow issue engine.old }
    requires unput { puts_of engine.old.puts issue ≡ None }
    ensures did { RunDid result (Below place) 0 same_turn place (R.view rack.old) engine.old rests (R.view rack.new) engine.new }
    ensures put { OnOk result (ArePutBelow (issue + 1) engine.new) }
    ensures others { OnOk result ((other : ℕ) → other ≢ issue → puts_of engine.new.puts other ≡ puts_of engine.old.puts other) }
    ensures history { OnOk result (engine.new.history ≡ engine.old.history) }
    ensures work { OnOk result (IsAtWork engine.new (seen_from place (R.view rack.new))) }
    ensures rest { OnOk result (LeavesRest place (R.view rack.old) (R.view rack.new)) }
{
    if !engine.awaits(issue) {
        return Ok(());
    }
    match put_issue(engine, rack, place, issue, now) {
        Ok(()) => Ok(()),
        Err(error) => Err(error),
    }
}

/// Puts the command of each issue that waits for a filter, in order of number.
pub(crate) fn put_waiting<R: Rack>(
    engine: &mut Engine,
    rack: &mut R,
    place: u8,
    now: u64,
) -> Result<(), FleetError>
    requires place { place ≤ 15 }
    requires work { IsAtWork engine.old (seen_from place (R.view rack.old)) }
    requires now { now ≡ (R.view rack.old).clock.now }
    requires none { engine.old.puts ≡ [] }
    ensures did { RunDid result (Below place) 0 same_turn place (R.view rack.old) engine.old rests (R.view rack.new) engine.new }
    ensures put { OnOk result (AllPut engine.new) }
    ensures work { OnOk result (IsAtWork engine.new (seen_from place (R.view rack.new))) }
    ensures rest { OnOk result (LeavesRest place (R.view rack.old) (R.view rack.new)) }
{
    for issue in 0..engine.flow().issues() {
        match put_first(engine, rack, place, issue, now) {
            Ok(()) => {}
            Err(error) => return Err(error),
        }
    }
    Ok(())
}

/// Appends the Begin of the run at a place, whose journal is empty, and puts each command of it that waits.
pub(crate) fn begin_run<R: Rack>(
    alloc: Global,
    engine: &mut Engine,
    rack: &mut R,
    place: u8,
    now: u64,
) -> Result<(), FleetError>
    requires place { place ≤ 15 }
    requires empty { engine.old.history.records ≡ [] }
    requires whole { IsWhole engine.old (seen_from place (R.view rack.old)) }
    requires now { now ≡ (R.view rack.old).clock.now }
    requires later { engine.old.history.seen.moment ≤ now }
    requires in_time { now ≤ last_moment }
    requires none { engine.old.puts ≡ [] }
    ensures did { RunDid result (MayAppend place) 1 same_turn place (R.view rack.old) engine.old rests (R.view rack.new) engine.new }
    ensures put { OnOk result (AllPut engine.new) }
    ensures work { OnOk result (IsAtWork engine.new (seen_from place (R.view rack.new))) }
    ensures rest { OnOk result (LeavesRest place (R.view rack.old) (R.view rack.new)) }
{
    match begin(alloc, engine, rack, place, now) {
        Ok(()) => put_waiting(engine, rack, place, now),
        Err(error) => Err(error),
    }
}

/// Appends the record of the enabled move at the present moment, says its line, and puts the command that it sends.
pub(crate) fn make_move<R: Rack>(
    alloc: Global,
    engine: &mut Engine,
    rack: &mut R,
    place: u8,
    now: u64,
) -> Result<(), FleetError>
    requires place { place ≤ 15 }
    requires work { IsAtWork engine.old (seen_from place (R.view rack.old)) }
    requires now { now ≡ (R.view rack.old).clock.now }
    requires put { AllPut engine.old }
    requires moves { enabled_move engine.old.history.seen now ≢ None }
    ensures did { RunDid result (MayMove place) 1 (next_turn place) place (R.view rack.old) engine.old looked (R.view rack.new) engine.new }
    ensures put { OnOk result (AllPut engine.new) }
    ensures work { OnOk result (IsAtWork engine.new (seen_from place (R.view rack.new))) }
    ensures rest { OnOk result (LeavesRest place (R.view rack.old) (R.view rack.new)) }
{
    let issues = engine.flow().issues();
    let done = step_at(engine, rack, place, now);
    engine.law();
    match done {
        Ok(true) => match say_last(alloc, engine, rack, place) {
            Ok(()) => put_first(engine, rack, place, issues, now),
            Err(error) => Err(error),
        },
        Ok(false) => unreachable!(),
        Err(error) => Err(of_engine(error)),
    }
}

/// Appends the Expire of an issue that was put and is at or past its deadline, the least, and says its line.
pub(crate) fn expire<R: Rack>(
    alloc: Global,
    engine: &mut Engine,
    rack: &mut R,
    place: u8,
    now: u64,
) -> Result<(), FleetError>
    requires place { place ≤ 15 }
    requires work { IsAtWork engine.old (seen_from place (R.view rack.old)) }
    requires now { now ≡ (R.view rack.old).clock.now }
    requires put { AllPut engine.old }
    requires overdue { (issue : ℕ) × IsFirstBy now (put_deadline engine.old) (Some issue) }
    ensures did { RunDid result (MayExpire place) 1 same_turn place (R.view rack.old) engine.old looked (R.view rack.new) engine.new }
    ensures put { OnOk result (AllPut engine.new) }
    ensures work { OnOk result (IsAtWork engine.new (seen_from place (R.view rack.new))) }
    ensures rest { OnOk result (LeavesRest place (R.view rack.old) (R.view rack.new)) }
{
    let Some(issue) = engine.overdue(now) else {
        unreachable!()
    };
    let done = expire_at(engine, rack, place, issue, now);
    engine.law();
    match done {
        Ok(()) => say_last(alloc, engine, rack, place),
        Err(error) => Err(of_engine(error)),
    }
}

/// Appends the Reply of a parcel in hand, and says its line; false exactly where it is no final reply of this run from the filter of an issue
/// that waits.
pub(crate) fn take_reply<R: Rack>(
    alloc: Global,
    engine: &mut Engine,
    rack: &mut R,
    place: u8,
    parcel: &Parcel,
    now: u64,
) -> Result<bool, FleetError>
    requires place { place ≤ 15 }
    requires work { IsAtWork engine.old (seen_from place (R.view rack.old)) }
    requires now { now ≡ (R.view rack.old).clock.now }
    requires addressed { IsAddressed parcel.now }
    requires back { parcel.now.back ≡ true }
    requires put { AllPut engine.old }
    ensures tried { (beat : ℕ) → RunTried result (MayAppend place) ((read : Answer) → IsReplyTo engine.old.history parcel.now read → ⊥) 1 place
        (R.view rack.old) engine.old (holds beat parcel.now) (R.view rack.new) engine.new }
    ensures put { OnOk result (AllPut engine.new) }
    ensures work { OnOk result (IsAtWork engine.new (seen_from place (R.view rack.new))) }
    ensures rest { OnOk result (LeavesRest place (R.view rack.old) (R.view rack.new)) }
{
    let done = reply_at(engine, rack, place, parcel, now);
    engine.law();
    match done {
        Ok(true) => match say_last(alloc, engine, rack, place) {
            Ok(()) => Ok(true),
            Err(error) => Err(error),
        },
        Ok(false) => Ok(false),
        Err(error) => Err(of_engine(error)),
    }
}

/// Puts the command again that is to be put next, whose moment has come.
pub(crate) fn resend<R: Rack>(
    engine: &mut Engine,
    rack: &mut R,
    place: u8,
    moment: u64,
    issue: u32,
    now: u64,
) -> Result<(), FleetError>
    requires place { place ≤ 15 }
    requires work { IsAtWork engine.old (seen_from place (R.view rack.old)) }
    requires now { now ≡ (R.view rack.old).clock.now }
    requires put { AllPut engine.old }
    requires next { IsNextPut engine.old.puts (Some (moment, issue)) }
    requires come { moment ≤ now }
    ensures did { RunDid result (MayResend place) 0 same_turn place (R.view rack.old) engine.old looked (R.view rack.new) engine.new }
    ensures put { OnOk result (AllPut engine.new) }
    ensures work { OnOk result (IsAtWork engine.new (seen_from place (R.view rack.new))) }
    ensures rest { OnOk result (LeavesRest place (R.view rack.old) (R.view rack.new)) }
{
    engine.law();
    put_issue(engine, rack, place, issue, now)
}
