// What a fleet looks for among its runs, by place.
ghost use Rattle.std.specs.Prelude.{◌≡◌, ◌≢◌, ◌+◌, ◌<◌, ◌≤◌, length, MatchOption, Some, None, [], false};
ghost use Rattle.flow_core_rules.specs.Changes.{outcome};
ghost use Rattle.flow_core_rules.specs.Moves.{asks, due};
ghost use Rattle.flow_engine.specs.OpenIssues.{IsNextPut};
ghost use Rattle.flow_world_parts.specs.Openings.{IsFirstRunAt};
ghost use Rattle.flow_fleet_steps.specs.Turns.{ComesNextOf, HasNoMove, HasNoneOverdue, HasNoResend, IsLeastNext, IsTurnOf, last_of};
ghost use Rattle.flow_fleet_steps.specs.Worlds.{EachRun};
ghost use Rattle.flow_fleet.specs.Searches.{FailedFirst, GoesOnHere, IsAround, IsFirstAsked, IsFirstOverdue, IsFirstResend, IsFirstUsed, IsLesser, IsUnusedBy};

use flow_engine::Engine;
use flow_world_parts::Filters;
use flow_world_parts::due::{come, has_move, soonest};

/// The place that is so far behind the turn, once around the circle.
fn around(turn: u8, back: u8, count: u8) -> u8
    requires few { count ≤ 16 }
    requires turn { turn < count }
    requires back { back < count }
    ensures { IsAround count turn back result }
{
    if turn + back < count {
        return turn + back;
    }
    turn + back - count
}

/// The first place, around the circle from the turn on, whose run has a move at this moment.
pub(crate) fn first_move(engines: &[Engine], turn: u8, now: u64) -> Option<u8>
    requires few { length engines.now ≤ 16 }
    requires turn { turn < length engines.now }
    ensures { MatchOption result (EachRun engines.now (λ place. HasNoMove now)) (λ place. IsTurnOf engines.now turn now place) }
{
    let count = engines.len() as u8;
    for back in 0..count {
        let place = around(turn, back, count);
        if has_move(&engines[place as usize], now) {
            return Some(place);
        }
    }
    None
}

/// The first place with an issue that was put and is at or past its deadline.
pub(crate) fn first_overdue(engines: &[Engine], now: u64) -> Option<u8>
    requires few { length engines.now ≤ 16 }
    ensures { MatchOption result (EachRun engines.now (λ place. HasNoneOverdue now)) (λ place. IsFirstOverdue engines.now now place) }
{
    for place in 0..engines.len() as u8 {
        if let Some(_) = engines[place as usize].overdue(now) {
            return Some(place);
        }
    }
    None
}

/// The resend of an engine whose moment has come, with that moment.
fn resend_by(engine: &Engine, now: u64) -> Option<(u64, u32)>
    ensures { MatchOption result (HasNoResend now engine.now) (λ found. IsNextPut engine.now.puts (Some (found.0, found.1)) × (found.0 ≤ now)) }
{
    come(engine.next_put(), now)
}

/// The first place with a resend whose moment has come, that moment, and its issue.
pub(crate) fn first_resend(engines: &[Engine], now: u64) -> Option<(u8, u64, u32)>
    requires few { length engines.now ≤ 16 }
    ensures { MatchOption result (EachRun engines.now (λ place. HasNoResend now)) (λ found. IsFirstResend engines.now now found.0 found.1 found.2) }
{
    for place in 0..engines.len() as u8 {
        if let Some((moment, issue)) = resend_by(&engines[place as usize], now) {
            return Some((place, moment, issue));
        }
    }
    None
}

/// What comes next of a run: the lesser of what is due and the next resend; nothing where nothing is due.
fn next_of(engine: &Engine) -> Option<u64>
    ensures { MatchOption result (due engine.now.history.seen ≡ None) (λ moment. ComesNextOf engine.now moment) }
{
    let Some(due) = engine.flow().due() else {
        return None;
    };
    Some(soonest(due, engine.next_put()))
}

/// The lesser of two moments, where there are two.
fn lesser(found: Option<u64>, next: Option<u64>) -> Option<u64>
    ensures { IsLesser found next result }
{
    let Some(a) = found else {
        return next;
    };
    let Some(b) = next else {
        return found;
    };
    if b < a {
        return Some(b);
    }
    Some(a)
}

/// The least moment that comes next of any run.
pub(crate) fn least_next(engines: &[Engine]) -> Option<u64>
    requires few { length engines.now ≤ 16 }
    ensures { MatchOption result (EachRun engines.now (λ place v. due v.history.seen ≡ None)) (λ moment. IsLeastNext engines.now moment) }
{
    let mut least = None;
    for place in 0..engines.len() as u8 {
        least = lesser(least, next_of(&engines[place as usize]));
    }
    least
}

/// The number of the first run, by place, with a question that waits for an operator, and its least such issue.
pub(crate) fn first_asked(engines: &[Engine]) -> Option<(u64, u32)>
    requires few { length engines.now ≤ 16 }
    ensures { MatchOption result (EachRun engines.now (λ place v. asks v.history.seen ≡ None)) (λ found. IsFirstAsked engines.now found.0 found.1) }
{
    for place in 0..engines.len() as u8 {
        let flow = engines[place as usize].flow();
        if let Some(issue) = flow.asks() {
            return Some((flow.run(), issue));
        }
    }
    None
}

/// The first place whose run goes on.
pub(crate) fn first_going(engines: &[Engine]) -> Option<u8>
    requires few { length engines.now ≤ 16 }
    ensures { MatchOption result (EachRun engines.now (λ place v. outcome v.history.seen.lists ≢ None)) (λ place. GoesOnHere engines.now place) }
{
    for place in 0..engines.len() as u8 {
        if engines[place as usize].flow().outcome().is_none() {
            return Some(place);
        }
    }
    None
}

/// The number of the first run, by place, that ended failed.
pub(crate) fn first_failed(engines: &[Engine]) -> Option<u64>
    requires few { length engines.now ≤ 16 }
    ensures { MatchOption result (EachRun engines.now (λ place v. outcome v.history.seen.lists ≢ Some false)) (λ run. FailedFirst engines.now run) }
{
    for place in 0..engines.len() as u8 {
        let flow = engines[place as usize].flow();
        if flow.outcome() == Some(false) {
            return Some(flow.run());
        }
    }
    None
}

/// The greatest moment of a last record, 0 where there is none.
pub(crate) fn last_moment(engines: &[Engine]) -> u64
    ensures { result ≡ last_of engines.now }
{
    match engines {
        [] => 0,
        [first, others @ ..] => first.last_moment().max(last_moment(others)),
    }
}

/// The least filter that has an act of an engine's run, where its journal is empty.
fn user_of(engine: &Engine, filters: &Filters) -> Option<u8>
    requires { length filters.now ≤ 16 }
    ensures { MatchOption result (IsUnusedBy filters.now engine.now)
        (λ agent. (engine.now.history.records ≡ []) × IsFirstRunAt filters.now engine.now.history.seen.run agent) }
{
    if engine.count() != 0 {
        return None;
    }
    filters.first_with_run(engine.flow().run())
}

/// The number of the first run, by place, whose journal is empty and of which a filter has an act, and the least such filter.
pub(crate) fn first_used(engines: &[Engine], filters: &Filters) -> Option<(u64, u8)>
    requires few { length engines.now ≤ 16 }
    requires filters { length filters.now ≤ 16 }
    ensures { MatchOption result (EachRun engines.now (λ place. IsUnusedBy filters.now)) (λ found. IsFirstUsed engines.now filters.now found.0 found.1) }
{
    for place in 0..engines.len() as u8 {
        let engine = &engines[place as usize];
        if let Some(agent) = user_of(engine, filters) {
            return Some((engine.flow().run(), agent));
        }
    }
    None
}
