// The order of a turn whose take found no parcel.
ghost use Rattle.std.specs.Prelude.{◌≡◌, ◌≢◌, ◌↔◌, ◌<◌, ◌≤◌, min, [], None, Some, true, false, IfSome, MatchOption};
ghost use Rattle.std.specs.Option.{option_map_or};
ghost use Rattle.cacao_site.specs.Sound.{IsSound};
ghost use Rattle.cacao_site.specs.View.{SiteView};
ghost use Rattle.flow_core_rules.specs.Changes.{is_in_time, outcome};
ghost use Rattle.flow_core_rules.specs.Moves.{enabled_move};
ghost use Rattle.flow_world_parts.specs.Dues.{IsDue};
ghost use Rattle.flow_world_parts.specs.Leads.{IsAtWork, IsLeastTold, WhereLooked};

use flow_engine_answers::Answers;
use flow_world_steps::Engine;

/// What a session does in a turn whose take found no parcel.
#[derive(Clone, Copy, Drop, PartialEq, Eq)]
pub enum Due {
    /// The record of the enabled move is appended, and the command that it sends is put.
    Move,
    /// The Upgrade of the run is appended, since an operator told of an issue.
    Upgrade,
    /// What an operator told of this issue is appended.
    Tell { issue: u32 },
    /// The Expire of this issue is appended.
    Expire { issue: u32 },
    /// The command of this issue is put again.
    Resend { issue: u32 },
    /// The clock is asked for this moment, in milliseconds.
    Wait { moment: u64 },
    /// The session closes as asked of this issue.
    Ask { issue: u32 },
}

/// Whether a move of the run is enabled at this moment.
pub fn has_move(engine: &Engine, now: u64) -> bool
    ensures has { result ≡ true → enabled_move engine.now.history.seen now ≢ None }
    ensures none { result ≡ false → enabled_move engine.now.history.seen now ≡ None }
{
    engine.flow().enabled(now).is_some()
}

/// The lesser of two issues, where there are two.
fn lesser(found: Option<u32>, issue: u32) -> u32
    ensures { result ≡ option_map_or (min issue) found issue }
{
    match found {
        Some(other) => issue.min(other),
        None => issue,
    }
}

/// The least issue that waits and has an answer.
fn least_told(engine: &Engine, answers: &Answers) -> Option<u32>
    ensures { IsLeastTold engine.now answers.now result }
{
    let mut least = None;
    for told in answers.as_slice() {
        if engine.flow().is_waiting(told.issue) {
            least = Some(lesser(least, told.issue));
        }
    }
    least
}

/// The next resend, a moment and an issue, where its moment has come.
pub fn come(resend: Option<(u64, u32)>, now: u64) -> Option<(u64, u32)>
    ensures { MatchOption result (IfSome resend (λ next. now < next.0))
        (λ found. (resend ≡ Some (found.0, found.1)) × (found.0 ≤ now)) }
{
    let Some((moment, issue)) = resend else {
        return None;
    };
    if now < moment {
        return None;
    }
    Some((moment, issue))
}

/// What comes next: the lesser of what is due and the next resend.
pub fn soonest(due: u64, resend: Option<(u64, u32)>) -> u64
    ensures { result ≡ option_map_or (λ next. min due next.0) resend due }
{
    match resend {
        Some((moment, _)) => due.min(moment),
        None => due,
    }
}

/// What is due at this moment in a turn whose take found no parcel: the first of these that applies. A move; what an operator told of
/// the least issue that waits and has an answer, behind the Upgrade of the run; the Expire of the least issue at its deadline; a
/// resend whose moment has come; the least of what is due and the next resend, which the clock is asked for; and, where nothing is
/// due, the least question.
pub fn first_due(engine: &Engine, answers: &Answers, now: u64) -> Due
    requires begun { engine.now.history.records ≢ [] }
    requires goes_on { outcome engine.now.history.seen.lists ≡ None }
    requires in_time { is_in_time engine.now.history.seen now ≡ true }
    ensures { (site : SiteView) → IsSound site → IsAtWork engine.now site → now ≡ site.clock.now
        → (next : Due) → (result ≡ next) ↔ WhereLooked (IsDue next) answers.now site engine.now }
{
    let flow = engine.flow();
    if has_move(engine, now) {
        return Due::Move;
    }
    if let Some(issue) = least_told(engine, answers) {
        if flow.is_upgraded() {
            return Due::Tell { issue };
        }
        return Due::Upgrade;
    }
    if let Some(issue) = engine.overdue(now) {
        return Due::Expire { issue };
    }
    let resend = engine.next_put();
    if let Some((_, issue)) = come(resend, now) {
        return Due::Resend { issue };
    }
    if let Some(due) = flow.due() {
        let moment = soonest(due, resend);
        return Due::Wait { moment };
    }
    match flow.asks() {
        Some(issue) => Due::Ask { issue },
        None => unreachable!(),
    }
}
