// What an engine does in a turn whose take found no parcel, once it is known what is due.
ghost use Rattle.std.specs.Prelude.{◌≡◌, ◌≢◌, ◌≤◌, ℕ, List, Some, None, true, false, OnOk};
ghost use Rattle.base_dues.specs.Pairs.{IsFirstBy};
ghost use Rattle.flow_core_rules.specs.Changes.{outcome};
ghost use Rattle.flow_core_rules.specs.Moves.{enabled_move};
ghost use Rattle.flow_engine_answers.specs.Answers.{IsOperatorAnswer};
ghost use Rattle.flow_engine_answers.specs.declared.answers.OperatorAnswer.{OperatorAnswer};
ghost use Rattle.flow_world_steps.specs.EngineCalls.{put_deadline};
ghost use Rattle.flow_world_steps.specs.OpenIssues.{IsNextPut};
ghost use Rattle.flow_world_steps.specs.Sides.{AllPut};
ghost use Rattle.flow_world_steps.specs.Turns.{IsIdle, IsOnTime, IsToBeTold, IsUntold};
ghost use Rattle.flow_world_steps.specs.Worlds.{looked};
ghost use Rattle.flow_world_parts.specs.Dues.{IsToUpgrade};
ghost use Rattle.flow_world_parts.specs.Leads.{EngineDid, IsAtWork, IsLeastTold, KeepsFilters, IsWaitingFor, MayAnswer, WhereLooked};

use crate::engine_side::{put_first, put_issue, say_last};
use crate::error::{WorldError, of_append};
use cacao_site::Site;
use flow_engine_answers::{Answers, OperatorAnswer};
use flow_world_steps::Engine;

/// Appends the record of the enabled move at the present moment, says its line, and puts the command that it sends.
pub fn make_move<S: Site>(engine: &mut Engine, site: &mut S, now: u64) -> Result<(), WorldError>
    requires work { IsAtWork engine.old (S.view site.old) }
    requires now { now ≡ (S.view site.old).clock.now }
    requires put { AllPut engine.old }
    requires moves { enabled_move engine.old.history.seen now ≢ None }
    ensures did { (answers : List OperatorAnswer)
        → EngineDid result (MayAnswer answers) 1 (S.view site.old) engine.old looked (S.view site.new) engine.new }
    ensures put { OnOk result (AllPut engine.new) }
    ensures work { OnOk result (IsAtWork engine.new (S.view site.new)) }
    ensures filters { OnOk result (KeepsFilters (S.view site.old) (S.view site.new)) }
    ensures now { OnOk result ((S.view site.new).clock.now ≡ (S.view site.old).clock.now) }
{
    let issues = engine.flow().issues();
    let done = engine.step(site, now);
    engine.law();
    match done {
        Ok(true) => match say_last(engine, site) {
            Ok(()) => match put_first(engine, site, issues, now) {
                Ok(()) => Ok(()),
                Err(error) => Err(error),
            },
            Err(error) => Err(error),
        },
        Ok(false) => unreachable!(),
        Err(error) => Err(of_append(error)),
    }
}

/// Appends the Upgrade of the run, and says its line.
pub fn upgrade<S: Site>(engine: &mut Engine, site: &mut S, now: u64) -> Result<(), WorldError>
    requires work { IsAtWork engine.old (S.view site.old) }
    requires now { now ≡ (S.view site.old).clock.now }
    requires goes_on { outcome engine.old.history.seen.lists ≡ None }
    requires earlier { engine.old.history.seen.lists.is_upgraded ≡ false }
    ensures did { (answers : List OperatorAnswer) → WhereLooked IsToUpgrade answers (S.view site.old) engine.old
        → EngineDid result (MayAnswer answers) 1 (S.view site.old) engine.old looked (S.view site.new) engine.new }
    ensures put { OnOk result (AllPut engine.old → AllPut engine.new) }
    ensures work { OnOk result (IsAtWork engine.new (S.view site.new)) }
    ensures filters { OnOk result (KeepsFilters (S.view site.old) (S.view site.new)) }
    ensures now { OnOk result ((S.view site.new).clock.now ≡ (S.view site.old).clock.now) }
{
    let done = engine.upgrade(site, now);
    engine.law();
    match done {
        Ok(()) => say_last(engine, site),
        Err(error) => Err(of_append(error)),
    }
}

/// Appends what an operator told of an issue that waits, and says its line.
fn tell_issue<S: Site>(
    engine: &mut Engine,
    site: &mut S,
    told: &OperatorAnswer,
    now: u64,
) -> Result<(), WorldError>
    requires work { IsAtWork engine.old (S.view site.old) }
    requires now { now ≡ (S.view site.old).clock.now }
    requires good { IsOperatorAnswer told.now }
    requires waits { IsWaitingFor engine.old told.now.issue }
    requires upgraded { engine.old.history.seen.lists.is_upgraded ≡ true }
    ensures did { (answers : List OperatorAnswer)
        → WhereLooked (λ w. IsToBeTold w told.now.issue told.now) answers (S.view site.old) engine.old
        → EngineDid result (MayAnswer answers) 1 (S.view site.old) engine.old looked (S.view site.new) engine.new }
    ensures put { OnOk result (AllPut engine.old → AllPut engine.new) }
    ensures work { OnOk result (IsAtWork engine.new (S.view site.new)) }
    ensures filters { OnOk result (KeepsFilters (S.view site.old) (S.view site.new)) }
    ensures now { OnOk result ((S.view site.new).clock.now ≡ (S.view site.old).clock.now) }
{
    engine.can_tell(told.issue, told, now);
    let done = engine.told(site, told.issue, told.status, &told.text, now);
    engine.law();
    match done {
        Ok(()) => say_last(engine, site),
        Err(error) => Err(of_append(error)),
    }
}

/// Appends the first answer for the least issue that waits and has one, and says its line.
pub fn tell<S: Site>(
    engine: &mut Engine,
    site: &mut S,
    answers: &Answers,
    issue: u32,
    now: u64,
) -> Result<(), WorldError>
    requires work { IsAtWork engine.old (S.view site.old) }
    requires now { now ≡ (S.view site.old).clock.now }
    requires idle { WhereLooked IsIdle answers.now (S.view site.old) engine.old }
    requires least { IsLeastTold engine.old answers.now (Some issue) }
    requires upgraded { engine.old.history.seen.lists.is_upgraded ≡ true }
    ensures did { EngineDid result (MayAnswer answers.now) 1 (S.view site.old) engine.old looked (S.view site.new) engine.new }
    ensures put { OnOk result (AllPut engine.old → AllPut engine.new) }
    ensures work { OnOk result (IsAtWork engine.new (S.view site.new)) }
    ensures filters { OnOk result (KeepsFilters (S.view site.old) (S.view site.new)) }
    ensures now { OnOk result ((S.view site.new).clock.now ≡ (S.view site.old).clock.now) }
{
    let Some(told) = answers.first(issue) else {
        unreachable!()
    };
    tell_issue(engine, site, told, now)
}

/// Appends the Expire of the least issue that was put and is at or past its deadline, and says its line.
pub fn expire<S: Site>(
    engine: &mut Engine,
    site: &mut S,
    issue: u32,
    now: u64,
) -> Result<(), WorldError>
    requires work { IsAtWork engine.old (S.view site.old) }
    requires now { now ≡ (S.view site.old).clock.now }
    requires overdue { IsFirstBy now (put_deadline engine.old) (Some issue) }
    ensures did { (answers : List OperatorAnswer) → WhereLooked IsUntold answers (S.view site.old) engine.old
        → EngineDid result (MayAnswer answers) 1 (S.view site.old) engine.old looked (S.view site.new) engine.new }
    ensures put { OnOk result (AllPut engine.old → AllPut engine.new) }
    ensures work { OnOk result (IsAtWork engine.new (S.view site.new)) }
    ensures filters { OnOk result (KeepsFilters (S.view site.old) (S.view site.new)) }
    ensures now { OnOk result ((S.view site.new).clock.now ≡ (S.view site.old).clock.now) }
{
    let done = engine.expire(site, issue, now);
    engine.law();
    match done {
        Ok(()) => say_last(engine, site),
        Err(error) => Err(of_append(error)),
    }
}

/// Puts the command again that is to be put next, whose moment has come.
pub fn resend<S: Site>(
    engine: &mut Engine,
    site: &mut S,
    issue: u32,
    now: u64,
) -> Result<(), WorldError>
    requires work { IsAtWork engine.old (S.view site.old) }
    requires now { now ≡ (S.view site.old).clock.now }
    requires next { (moment : ℕ) × IsNextPut engine.old.puts (Some (moment, issue)) × (moment ≤ now) }
    ensures did { (answers : List OperatorAnswer) → WhereLooked IsOnTime answers (S.view site.old) engine.old
        → EngineDid result (MayAnswer answers) 0 (S.view site.old) engine.old looked (S.view site.new) engine.new }
    ensures put { OnOk result (AllPut engine.old → AllPut engine.new) }
    ensures work { OnOk result (IsAtWork engine.new (S.view site.new)) }
    ensures filters { OnOk result (KeepsFilters (S.view site.old) (S.view site.new)) }
    ensures now { OnOk result ((S.view site.new).clock.now ≡ (S.view site.old).clock.now) }
{
    engine.law();
    put_issue(engine, site, issue, now)
}
