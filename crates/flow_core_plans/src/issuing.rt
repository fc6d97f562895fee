// Commands and questions: the issues that tasks make.
ghost use Rattle.std.specs.Prelude.{◌≡◌, ◌==◌, ◌&&◌, ◌<◌, ◌≤◌, IfOk, IfSome, Some, length, option_map};
ghost use Rattle.std.specs.Str.{IsUtf8, bytes_eq};
ghost use Rattle.flow_core_rules.specs.declared.phases.Phase.TheVariants as phase;
ghost use Rattle.flow_core_rules.specs.Changes.{command_at, question_at, issuing, next_command, next_question, send, ask};
ghost use Rattle.cacao_check_steps.specs.Uses.{commands_of};
ghost use Rattle.flow_core_values.specs.Planned.{edits_of, AreDeclared};
ghost use Rattle.flow_core_values.specs.PlaceViews.{place_view, IsOfCommand};
ghost use Rattle.flow_core_values.specs.RunFacts.{shown_of, here_of, IsWell};
ghost use Rattle.flow_core_plans.specs.Issuings.{made_of, new_issue};
ghost use Rattle.flow_core_values.specs.Stands.{StandsThere};

use cacao_site::Bytes;
use flow_core_rules::{Issue, IssuePhase, Phase, Task};
use flow_core_values::{Place, Planned, Run, Stand, place_in};
use std::alloc::{AllocError, Global};

/// A new issue, and its task as it waits for the issue's end.
#[derive(Drop)]
pub struct Made {
    pub issue: Issue,
    pub task: Task,
}

// A new issue of a task.
fn issue_with(stand: Stand<'_>, agent: u8, bytes: Bytes) -> Issue
    ensures { result ≡ new_issue stand.entry agent bytes }
{
    Issue {
        task: stand.number,
        agent,
        bytes,
        moment: stand.now,
        phase: IssuePhase::Waiting,
    }
}

/// The edits of a new issue.
pub fn planned(alloc: Global, task: u32, made: Made) -> Result<Vec<Planned>, AllocError>
    ensures edits { IfOk result (λ plan. edits_of plan.items ≡ (made_of task made).1) }
    ensures declared { IfOk result (λ plan. AreDeclared plan.items) }
{
    let mut plan = Vec::with_capacity(alloc, 2)?;
    plan.push(Planned::Issues(made.issue))?;
    plan.push(Planned::Moves {
        task,
        new: made.task,
    })?;
    Ok(plan)
}

// How many issues there are.
fn issue_count(run: &Run) -> u32
    requires { length run.now.tables.issues.items ≤ 100_000_001 }
    ensures { result ≡ length run.now.tables.issues.items }
{
    run.tables.issues.len() as u32
}

// The issue of a task at a place, and the task as it waits.
fn made_at(run: &Run, stand: Stand<'_>, place: u32, issue: Issue) -> Made
    requires well { IsWell run.now }
    requires place { stand.task.phase ≡ phase.Sending place }
    ensures made { made_of stand.entry.number result ≡ issuing (here_of (shown_of run.now) stand.entry) issue }
    ensures issue { result.issue ≡ issue }
{
    let number = issue_count(run);
    let task = Task {
        phase: Phase::Awaiting {
            place,
            issue: number,
        },
        ..stand.task
    };
    Made { issue, task }
}

// The command of a filter's place.
fn command_at(
    run: &Run,
    alloc: Global,
    stand: Stand<'_>,
    place: Place<'_>,
) -> Result<Option<Issue>, AllocError>
    requires well { IsWell run.now }
    requires stands { StandsThere run.now stand }
    requires command { IsOfCommand (commands_of stand.step.now.kind) place }
    ensures { IfOk result (λ o. o ≡ command_at (here_of (shown_of run.now) stand.entry) (place_view place.entry)) }
{
    let Place::Filter { command, to, .. } = place else {
        return Ok(None);
    };
    let Some(scope) = stand.task.step_scope else {
        return Ok(None);
    };
    let Some(content) = run.setup.content(stand.task.book, stand.task.step, command) else {
        return Ok(None);
    };
    let bytes = run.fill(alloc, content, scope)?;
    let agent = run.setup.filter_of(to);
    Ok(Some(issue_with(stand, agent, bytes)))
}

// The question of an operator's place.
fn question_at(
    run: &Run,
    alloc: Global,
    stand: Stand<'_>,
    place: Place<'_>,
) -> Result<Option<Issue>, AllocError>
    requires well { IsWell run.now }
    requires stands { StandsThere run.now stand }
    requires command { IsOfCommand (commands_of stand.step.now.kind) place }
    ensures question { IfOk result (λ o. o ≡ question_at (here_of (shown_of run.now) stand.entry) (place_view place.entry)) }
    ensures text { IfOk result (λ o. IfSome o (λ issue. IsUtf8 issue.bytes)) }
{
    let Place::Operator { command, .. } = place else {
        return Ok(None);
    };
    let Some(scope) = stand.task.step_scope else {
        return Ok(None);
    };
    let Some(phrase) = run
        .setup
        .question(stand.task.book, stand.task.step, command)
    else {
        return Ok(None);
    };
    let text = run.replaced(alloc, scope, phrase)?;
    let bytes = Bytes::from_vec(text.into_bytes());
    Ok(Some(issue_with(stand, 0, bytes)))
}

/// The command that a task sends next.
pub fn next_command(run: &Run, alloc: Global, now: u64, t: u32) -> Result<Option<Made>, AllocError>
    requires { IsWell run.now }
    ensures { IfOk result (λ o. option_map (made_of t) o ≡ next_command (shown_of run.now) now t) }
{
    let Some(stand) = run.stand(now, t) else {
        return Ok(None);
    };
    let Phase::Sending { place } = stand.task.phase else {
        return Ok(None);
    };
    let Some(found) = place_in(&stand.step.kind, place) else {
        return Ok(None);
    };
    let Some(issue) = command_at(run, alloc, stand, found)? else {
        return Ok(None);
    };
    Ok(Some(made_at(run, stand, place, issue)))
}

/// What a task asks an operator next.
pub fn next_question(run: &Run, alloc: Global, now: u64, t: u32) -> Result<Option<Made>, AllocError>
    requires { IsWell run.now }
    ensures question { IfOk result (λ o. option_map (made_of t) o ≡ next_question (shown_of run.now) now t) }
    ensures text { IfOk result (λ o. IfSome o (λ made. IsUtf8 made.issue.bytes)) }
{
    let Some(stand) = run.stand(now, t) else {
        return Ok(None);
    };
    let Phase::Sending { place } = stand.task.phase else {
        return Ok(None);
    };
    let Some(found) = place_in(&stand.step.kind, place) else {
        return Ok(None);
    };
    let Some(issue) = question_at(run, alloc, stand, found)? else {
        return Ok(None);
    };
    Ok(Some(made_at(run, stand, place, issue)))
}

// Whether a Send names the issue that comes next.
fn is_sent(run: &Run, made: &Made, number: u32, agent: u8, bytes: &Bytes) -> bool
    ensures { result ≡ ((number == length run.now.tables.issues.items) && (agent == made.now.issue.agent) && bytes_eq bytes.now made.now.issue.bytes) }
{
    number as usize == run.tables.issues.len()
        && agent == made.issue.agent
        && *bytes == made.issue.bytes
}

// Whether an Ask names the issue that comes next.
fn is_asked(run: &Run, made: &Made, number: u32, bytes: &Bytes) -> bool
    ensures { result ≡ (run.now.tables.is_upgraded && (number == length run.now.tables.issues.items) && bytes_eq bytes.now made.now.issue.bytes) }
{
    run.tables.is_upgraded
        && number as usize == run.tables.issues.len()
        && *bytes == made.issue.bytes
}

/// What a Send changes; `None` where it may not come next. A command that is longer than the record's is not filled.
pub(crate) fn send(
    run: &Run,
    alloc: Global,
    now: u64,
    task: u32,
    issue: u32,
    agent: u8,
    bytes: &Bytes,
) -> Result<Option<Vec<Planned>>, AllocError>
    requires { IsWell run.now }
    ensures edits { IfOk result (λ o. option_map (λ plan. edits_of plan.items) o ≡ send (shown_of run.now) now task issue agent bytes.now) }
    ensures declared { IfOk result (λ o. IfSome o (λ plan. AreDeclared plan.items)) }
{
    if run.next_command_reaches(now, task, bytes.as_slice().len() + 1) {
        return Ok(None);
    }
    let Some(made) = next_command(run, alloc, now, task)? else {
        return Ok(None);
    };
    if !is_sent(run, &made, issue, agent, bytes) {
        return Ok(None);
    }
    let plan = planned(alloc, task, made)?;
    Ok(Some(plan))
}

/// What an Ask changes; `None` where it may not come next. A question that is longer than the record's is not made.
pub(crate) fn ask(
    run: &Run,
    alloc: Global,
    now: u64,
    task: u32,
    issue: u32,
    bytes: &Bytes,
) -> Result<Option<Vec<Planned>>, AllocError>
    requires { IsWell run.now }
    ensures edits { IfOk result (λ o. option_map (λ plan. edits_of plan.items) o ≡ ask (shown_of run.now) now task issue bytes.now) }
    ensures declared { IfOk result (λ o. IfSome o (λ plan. AreDeclared plan.items)) }
{
    if run.next_question_reaches(now, task, bytes.as_slice().len() + 1) {
        return Ok(None);
    }
    let Some(made) = next_question(run, alloc, now, task)? else {
        return Ok(None);
    };
    if !is_asked(run, &made, issue, bytes) {
        return Ok(None);
    }
    let plan = planned(alloc, task, made)?;
    Ok(Some(plan))
}
