// Replies, what operators tell, deadlines that pass, and the Upgrade.
ghost use Rattle.std.specs.Prelude.{◌≡◌, ◌+◌, ◌<◌, ◌≤◌, [], ◌∷◌, false, true, nat_le, ◌==◌, drop, length, IfOk, OnOk, IfSome, MatchOption, option_map, None, Some, if◌then◌else◌};
ghost use Rattle.std.specs.Fmt.{decimal};
ghost use Rattle.std.specs.List.{flat_map};
ghost use Rattle.flow_core_rules.specs.declared.issues.IssuePhase.TheVariants as issue_phase;
ghost use Rattle.flow_core_rules.specs.Places.{places};
ghost use Rattle.flow_core_rules.specs.Edits.{closes};
ghost use Rattle.flow_core_rules.specs.Changes.{is_final, is_answer, awaited_place, waiting_at, waiting_filter_at, results, paired, written, out_args_of, after_answer, answered, reply, tell, expire, outcome, upgrade, done};
ghost use Rattle.flow_core_plans.specs.Adding.{Adds, IsPlan};
ghost use Rattle.flow_core_values.specs.Planned.{edits_of, AreDeclared};
ghost use Rattle.flow_core_values.specs.TableFacts.{lists_of};
ghost use Rattle.flow_core_values.specs.RunFacts.{shown_of, here_of, IsWell};
ghost use Rattle.flow_core_plans.specs.Issuings.{waiting_of, WaitsThere};
ghost use Rattle.flow_core_values.specs.Stands.{StandsThere};

use crate::going::finish;
use crate::writing::{add, write};
use cacao_book::StepKind;
use cacao_site::Bytes;
use cacao_vars::{Name, Word};
use flow_core_rules::{Issue, IssuePhase, Phase, Task};
use flow_core_values::{Planned, Run, Stand, next_place};
use std::alloc::{AllocError, Global};
use std::str;

/// An issue that waits, its task, the place of the issue, and the scope of its step.
#[derive(Clone, Copy)]
pub(crate) struct Awaited<'a> {
    pub issue: &'a Issue,
    pub stand: Stand<'a>,
    pub place: u32,
    pub scope: u32,
}

/// A status, the number of a rule (0: none), and a status text.
#[derive(Clone, Copy)]
pub(crate) struct Answer<'a> {
    pub status: u16,
    pub rule: u32,
    pub text: &'a str,
}

// Whether a status ends an issue (OpenC2 Language 1.0, section 3.3.2.2).
fn is_final(status: u16) -> bool
    ensures { result ≡ is_final status }
{
    matches!(status, 200 | 400 | 401 | 403 | 404 | 500 | 501 | 503)
}

// The text of an answer, if it is one: of a final status, in UTF-8 and of at most 4,096 bytes.
fn answer_text(status: u16, text: &Bytes) -> Option<&str>
    ensures { MatchOption result (is_answer status text.now ≡ false) (λ found. (found.now ≡ text.now) × (is_answer status text.now ≡ true)) }
{
    if !is_final(status) {
        return None;
    }
    if text.len() > 4096 {
        return None;
    }
    match str::from_utf8(text.as_slice()) {
        Ok(found) => Some(found),
        Err(_) => None,
    }
}

// The names that get the results.
fn out_args(kind: &StepKind) -> &[Name]
    ensures { result.now ≡ out_args_of kind.now }
{
    match kind {
        StepKind::Action { out_args, .. } => out_args.as_slice(),
        _ => &[],
    }
}

// Whether so many milliseconds have passed since a moment.
fn has_passed(since: u64, timeout: u32, now: u64) -> bool
    ensures { result ≡ nat_le (since + timeout) now }
{
    match now.checked_sub(since) {
        Some(passed) => u64::from(timeout) <= passed,
        None => false,
    }
}

// The status in decimal.
fn status_word(alloc: Global, status: u16) -> Result<Word, AllocError>
    ensures { IfOk result (λ word. word ≡ decimal status) }
{
    let text = format!(in alloc; "{status}")?;
    Ok(Word::from_string(text))
}

// The number of a rule in decimal, if there is one.
fn rule_word(alloc: Global, rule: u32) -> Result<Option<Word>, AllocError>
    ensures { IfOk result (λ word. word ≡ (if rule == 0 then None else Some (decimal rule))) }
{
    if rule == 0 {
        return Ok(None);
    }
    let text = format!(in alloc; "{rule}")?;
    Ok(Some(Word::from_string(text)))
}

// The place at which a task awaits the issue with this number.
fn awaited_place(run: &Run, stand: Stand<'_>, n: u32) -> Option<u32>
    ensures { result ≡ awaited_place n stand.entry.task.phase }
{
    match stand.task.phase {
        Phase::Awaiting { place, issue } => { if issue == n { Some(place) } else { None } }
        _ => None,
    }
}

/// The issue with this number, if it waits.
pub(crate) fn waiting(run: &Run, now: u64, n: u32) -> Option<Awaited<'_>>
    requires { IsWell run.now }
    ensures waiting { option_map (waiting_of (shown_of run.now)) result ≡ waiting_at (shown_of run.now) now n }
    ensures there { IfSome result (WaitsThere run.now) }
{
    let issue = run.tables.issues.get(n as usize)?;
    let stand = run.stand(now, issue.task)?;
    let place = awaited_place(run, stand, n)?;
    let scope = stand.task.step_scope?;
    if issue.phase != IssuePhase::Waiting {
        return None;
    }
    Some(Awaited {
        issue,
        stand,
        place,
        scope,
    })
}

// The issue with this number, if it is one of a filter and waits.
fn waiting_filter(run: &Run, now: u64, n: u32) -> Option<Awaited<'_>>
    requires { IsWell run.now }
    ensures waiting { option_map (waiting_of (shown_of run.now)) result ≡ waiting_filter_at (shown_of run.now) now n }
    ensures there { IfSome result (WaitsThere run.now) }
{
    let awaited = waiting(run, now, n)?;
    if awaited.issue.agent == 0 {
        return None;
    }
    Some(awaited)
}

// Writes a text to the first of these names, and gives the others.
fn write_first<'n>(
    run: &Run,
    plan: &mut Vec<Planned>,
    scope: u32,
    names: &'n [Name],
    text: Option<Word>,
) -> Result<&'n [Name], AllocError>
    requires well { IsWell run.now }
    requires there { scope < length run.now.tables.opened.scopes }
    ensures edits { OnOk result (Adds plan.old.items plan.new.items (flat_map (written (lists_of run.now.tables) scope) (paired names.now (text ∷ [])))) }
    ensures others { IfOk result (λ others. others.now ≡ drop 1 names.now) }
{
    let Some((name, others)) = names.split_first() else {
        return Ok(names);
    };
    write(run, plan, scope, name, text)?;
    Ok(others)
}

// Writes the results of an answer to the names of the step.
fn write_results(
    run: &Run,
    alloc: Global,
    plan: &mut Vec<Planned>,
    awaited: Awaited<'_>,
    answer: Answer<'_>,
) -> Result<(), AllocError>
    requires well { IsWell run.now }
    requires there { WaitsThere run.now awaited }
    ensures { OnOk result (Adds plan.old.items plan.new.items (flat_map (written (lists_of run.now.tables) awaited.entry.scope)
        (paired (out_args_of awaited.entry.stand.step.now.kind) (results answer.entry.status answer.entry.rule answer.entry.text.now)))) }
{
    let names = out_args(&awaited.stand.step.kind);
    let status = status_word(alloc, answer.status)?;
    let others = write_first(run, plan, awaited.scope, names, Some(status))?;
    let rule = rule_word(alloc, answer.rule)?;
    let last = write_first(run, plan, awaited.scope, others, rule)?;
    let text = Word::new(alloc, answer.text)?;
    let _rest = write_first(run, plan, awaited.scope, last, Some(text))?;
    Ok(())
}

// The places of a step are few, since its lists have limits. It does nothing.
fn few_places(run: &Run, stand: Stand<'_>)
    requires { StandsThere run.now stand }
    ensures { length (places stand.entry.step.now.kind) ≤ 4096 }
{
    if let Some(book) = run.setup.book(stand.task.book) {
        let _ = book.steps.as_slice();
    }
}

// The task after an answer.
fn after_answer(run: &Run, awaited: Awaited<'_>, status: u16) -> Task
    requires well { IsWell run.now }
    requires there { WaitsThere run.now awaited }
    ensures { result ≡ after_answer (waiting_of (shown_of run.now) awaited.entry) status }
{
    let stand = awaited.stand;
    if status != 200 {
        return finish(run, stand, false);
    }
    few_places(run, stand);
    match next_place(&stand.step.kind, awaited.place) {
        Some(place) => Task {
            phase: Phase::Sending { place },
            ..stand.task
        },
        None => finish(run, stand, true),
    }
}

// What an answer changes that ends the issue so.
fn answered(
    run: &Run,
    alloc: Global,
    n: u32,
    end: IssuePhase,
    awaited: Awaited<'_>,
    answer: Answer<'_>,
) -> Result<Vec<Planned>, AllocError>
    requires well { IsWell run.now }
    requires there { WaitsThere run.now awaited }
    ensures { IfOk result (λ plan. IsPlan plan.items
        (answered n end answer.entry.status answer.entry.rule answer.entry.text.now (waiting_of (shown_of run.now) awaited.entry))) }
{
    let mut plan = Vec::new(alloc);
    let closes = Planned::Closes {
        issue: n,
        phase: end,
    };
    add(&mut plan, closes)?;
    write_results(run, alloc, &mut plan, awaited, answer)?;
    let new = after_answer(run, awaited, answer.status);
    let moves = Planned::Moves {
        task: awaited.stand.number,
        new,
    };
    add(&mut plan, moves)?;
    Ok(plan)
}

/// What a Reply changes; `None` where it may not come next.
pub(crate) fn reply(
    run: &Run,
    alloc: Global,
    now: u64,
    n: u32,
    status: u16,
    rule: u32,
    text: &Bytes,
) -> Result<Option<Vec<Planned>>, AllocError>
    requires { IsWell run.now }
    ensures edits { IfOk result (λ o. option_map (λ plan. edits_of plan.items) o ≡ reply (shown_of run.now) now n status rule text.now) }
    ensures declared { IfOk result (λ o. IfSome o (λ plan. AreDeclared plan.items)) }
{
    let Some(text) = answer_text(status, text) else {
        return Ok(None);
    };
    let Some(awaited) = waiting_filter(run, now, n) else {
        return Ok(None);
    };
    let answer = Answer { status, rule, text };
    let plan = answered(
        run,
        alloc,
        n,
        IssuePhase::Answered { status },
        awaited,
        answer,
    )?;
    Ok(Some(plan))
}

/// What a Told changes; `None` where it may not come next.
pub(crate) fn tell(
    run: &Run,
    alloc: Global,
    now: u64,
    n: u32,
    status: u16,
    text: &Bytes,
) -> Result<Option<Vec<Planned>>, AllocError>
    requires { IsWell run.now }
    ensures edits { IfOk result (λ o. option_map (λ plan. edits_of plan.items) o ≡ tell (shown_of run.now) now n status text.now) }
    ensures declared { IfOk result (λ o. IfSome o (λ plan. AreDeclared plan.items)) }
{
    if !run.tables.is_upgraded {
        return Ok(None);
    }
    let Some(text) = answer_text(status, text) else {
        return Ok(None);
    };
    let Some(awaited) = waiting(run, now, n) else {
        return Ok(None);
    };
    let answer = Answer {
        status,
        rule: 0,
        text,
    };
    let plan = answered(run, alloc, n, IssuePhase::Told { status }, awaited, answer)?;
    Ok(Some(plan))
}

// The edits of an issue whose deadline has passed.
fn expired(run: &Run, alloc: Global, n: u32, stand: Stand<'_>) -> Result<Vec<Planned>, AllocError>
    ensures { IfOk result (λ plan. IsPlan plan.items (closes n issue_phase.Expired ∷ done (here_of (shown_of run.now) stand.entry) false)) }
{
    let new = finish(run, stand, false);
    let mut plan = Vec::with_capacity(alloc, 2)?;
    plan.push(Planned::Closes {
        issue: n,
        phase: IssuePhase::Expired,
    })?;
    plan.push(Planned::Moves {
        task: stand.number,
        new,
    })?;
    Ok(plan)
}

/// What an Expire changes; `None` where it may not come next.
pub(crate) fn expire(
    run: &Run,
    alloc: Global,
    now: u64,
    n: u32,
) -> Result<Option<Vec<Planned>>, AllocError>
    requires { IsWell run.now }
    ensures edits { IfOk result (λ o. option_map (λ plan. edits_of plan.items) o ≡ expire (shown_of run.now) now n) }
    ensures declared { IfOk result (λ o. IfSome o (λ plan. AreDeclared plan.items)) }
{
    let Some(awaited) = waiting_filter(run, now, n) else {
        return Ok(None);
    };
    let stand = awaited.stand;
    if !has_passed(awaited.issue.moment, stand.step.timeout, stand.now) {
        return Ok(None);
    }
    let plan = expired(run, alloc, n, stand)?;
    Ok(Some(plan))
}

/// What an Upgrade to this version changes; `None` where it may not come next.
pub(crate) fn upgrade(
    run: &Run,
    alloc: Global,
    version: u8,
) -> Result<Option<Vec<Planned>>, AllocError>
    ensures edits { IfOk result (λ o. option_map (λ plan. edits_of plan.items) o ≡ upgrade (lists_of run.now.tables) version) }
    ensures declared { IfOk result (λ o. IfSome o (λ plan. AreDeclared plan.items)) }
{
    if version != 2 || run.outcome().is_some() || run.tables.is_upgraded {
        return Ok(None);
    }
    let mut plan = Vec::with_capacity(alloc, 1)?;
    plan.push(Planned::Upgrades)?;
    Ok(Some(plan))
}
