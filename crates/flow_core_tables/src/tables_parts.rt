// What an edit changes in the single tables of a run.
ghost use Rattle.std.specs.Prelude.{◌≡◌, ℕ, ◌+◌, ◌<◌, ◌≤◌, ◌==◌, ◌++◌, ◌∷◌, [], length, Some, None, false, IfSome, slice_get, vec_len, vec_capacity, if◌then◌else◌};
ghost use Rattle.std.specs.Option.{option_map_or};
ghost use Rattle.run_records.specs.Ranges.{last_moment};
ghost use Rattle.base_dues.specs.Pairs.{at};
ghost use Rattle.flow_core_rules.specs.Edits.{changed_at};
ghost use Rattle.flow_core_rules.specs.Changes.{has_failed};
ghost use Rattle.flow_core_tables.specs.Fits.{IsInTime};
ghost use Rattle.flow_core_tables.specs.declared.tables.Wait.{Wait};
ghost use Rattle.flow_core_tables.specs.Waits.{delay_by, timeout_by, ready_alone, delay_alone, deadline_by, question_by, one_more, one_less, ready_after, told, is_that};

use crate::tables::Wait;
use base_dues::Dues;
use flow_core_rules::{Issue, IssuePhase, Phase, Task};
use flow_core_setup::Setup;

// Adds an element for which there is room.
pub(crate) fn add<T: Drop>(items: &mut Vec<T>, item: T)
    requires { vec_len items.old < vec_capacity items.old }
    ensures items { items.new.items ≡ items.old.items ++ item ∷ [] }
    ensures len { vec_len items.new ≡ vec_len items.old + 1 }
    ensures room { vec_capacity items.old ≤ vec_capacity items.new }
{
    match items.push(item) {
        Ok(()) => {}
        Err(_) => unreachable!(),
    }
}

// The delay of the step at which a task stands, in milliseconds.
fn delay_of(setup: &Setup, task: Task) -> u32
    ensures { result ≡ delay_by setup.now task }
{
    match setup.step(task.book, task.step) {
        Some(step) => step.delay,
        None => 0,
    }
}

// The timeout of the step at which a task stands, in milliseconds.
fn timeout_of(setup: &Setup, task: Task) -> u32
    ensures { result ≡ timeout_by setup.now task }
{
    match setup.step(task.book, task.step) {
        Some(step) => step.timeout,
        None => 0,
    }
}

// Gives a number this moment, or none.
fn enter(dues: &mut Dues, number: u32, due: Option<u64>)
    requires { number < dues.old.room }
    ensures each { (n : ℕ) → at dues.new.pairs n ≡ (if n == number then due else at dues.old.pairs n) }
    ensures room { dues.new.room ≡ dues.old.room }
{
    match due {
        Some(moment) => dues.insert(moment, number),
        None => dues.remove(number),
    }
}

// The moment from which a task can go on that no child keeps back.
fn ready_alone(setup: &Setup, task: Task) -> Option<u64>
    requires { IsInTime task.phase }
    ensures { result ≡ ready_alone setup.now task task.phase }
{
    match task.phase {
        Phase::At { since } => Some(since + u64::from(delay_of(setup, task))),
        Phase::Sending { .. } | Phase::Joining { .. } => Some(0),
        _ => None,
    }
}

// The moment at which its delay runs out, where it stands before its step.
fn delay_alone(setup: &Setup, task: Task) -> Option<u64>
    requires { IsInTime task.phase }
    ensures { result ≡ delay_alone setup.now task task.phase }
{
    match task.phase {
        Phase::At { since } => Some(since + u64::from(delay_of(setup, task))),
        _ => None,
    }
}

// The deadline of a new issue of a task, if it has one.
fn deadline_of(setup: &Setup, task: Task, issue: &Issue) -> Option<u64>
    requires { issue.now.moment ≤ last_moment }
    ensures { result ≡ deadline_by setup.now task issue.now }
{
    if issue.phase != IssuePhase::Waiting || issue.agent == 0 {
        return None;
    }
    Some(issue.moment + u64::from(timeout_of(setup, task)))
}

// 0, if a new issue waits for an operator.
fn question_of(issue: &Issue) -> Option<u64>
    ensures { result ≡ question_by issue.now }
{
    if issue.phase != IssuePhase::Waiting || issue.agent != 0 {
        return None;
    }
    Some(0)
}

// The entries of a task that no child keeps back.
pub(crate) fn settle(ready: &mut Dues, delays: &mut Dues, setup: &Setup, t: u32, task: Task)
    requires ready { t < ready.old.room }
    requires delays { t < delays.old.room }
    requires in_time { IsInTime task.phase }
    ensures ready { (n : ℕ) → at ready.new.pairs n
        ≡ (if n == t then ready_alone setup.now task task.phase else at ready.old.pairs n) }
    ensures delays { (n : ℕ) → at delays.new.pairs n
        ≡ (if n == t then delay_alone setup.now task task.phase else at delays.old.pairs n) }
    ensures ready_room { ready.new.room ≡ ready.old.room }
    ensures delays_room { delays.new.room ≡ delays.old.room }
{
    enter(ready, t, ready_alone(setup, task));
    enter(delays, t, delay_alone(setup, task));
}

// The entries of a new issue of a task.
pub(crate) fn watch(
    deadlines: &mut Dues,
    questions: &mut Dues,
    setup: &Setup,
    task: Task,
    n: u32,
    issue: &Issue,
)
    requires deadlines { n < deadlines.old.room }
    requires questions { n < questions.old.room }
    requires in_time { issue.now.moment ≤ last_moment }
    ensures deadlines { (k : ℕ) → at deadlines.new.pairs k
        ≡ (if k == n then deadline_by setup.now task issue.now else at deadlines.old.pairs k) }
    ensures questions { (k : ℕ) → at questions.new.pairs k
        ≡ (if k == n then question_by issue.now else at questions.old.pairs k) }
    ensures deadlines_room { deadlines.new.room ≡ deadlines.old.room }
    ensures questions_room { questions.new.room ≡ questions.old.room }
{
    enter(deadlines, n, deadline_of(setup, task, issue));
    enter(questions, n, question_of(issue));
}

// The parent of a new task waits for it.
pub(crate) fn expect(waits: &mut Vec<Wait>, ready: &mut Dues, parent: Option<u32>)
    requires within { IfSome parent (λ p. p < length waits.old.items) }
    requires fits { IfSome parent
        (λ p. (wait : Wait) → slice_get waits.old.items p ≡ Some wait → wait.open < 4_294_967_295) }
    ensures waits { waits.new.items
        ≡ option_map_or (λ p. changed_at p one_more waits.old.items) parent waits.old.items }
    ensures ready { (n : ℕ) → at ready.new.pairs n ≡ (if is_that n parent then None else at ready.old.pairs n) }
    ensures len { vec_len waits.new ≡ vec_len waits.old }
    ensures capacity { vec_capacity waits.new ≡ vec_capacity waits.old }
    ensures room { ready.new.room ≡ ready.old.room }
{
    let Some(parent) = parent else {
        return;
    };
    waits[parent as usize].open += 1;
    ready.remove(parent);
}

// The task that waits for the end of this one, where it has ended.
pub(crate) fn told(task: Task) -> Option<u32>
    ensures { result ≡ told task.parent task.phase }
{
    match task.phase {
        Phase::Ended { .. } => task.parent,
        _ => None,
    }
}

// Whether a task has failed.
pub(crate) fn has_failed(task: Task) -> bool
    ensures { result ≡ has_failed task.phase }
{
    match task.phase {
        Phase::Ended { well } => !well,
        _ => false,
    }
}

// One of the tasks that are waited for has ended.
fn one_less(wait: Wait, failed: bool) -> Wait
    requires { 0 < wait.open }
    ensures { result ≡ one_less failed wait }
{
    Wait {
        open: wait.open - 1,
        failed: wait.failed || failed,
    }
}

// The moment from which a task can go on that waits for so many.
fn ready_after(count: u32) -> Option<u64>
    ensures { result ≡ ready_after count }
{
    if count == 0 { Some(0) } else { None }
}

// One of the tasks that a task waits for has ended.
pub(crate) fn tell(waits: &mut Vec<Wait>, ready: &mut Dues, parent: Option<u32>, failed: bool)
    requires within { IfSome parent (λ p. p < length waits.old.items) }
    requires some { IfSome parent
        (λ p. (wait : Wait) → slice_get waits.old.items p ≡ Some wait → 0 < wait.open) }
    requires room { IfSome parent (λ p. p < ready.old.room) }
    ensures waits { waits.new.items
        ≡ option_map_or (λ p. changed_at p (one_less failed) waits.old.items) parent waits.old.items }
    ensures ready { (n : ℕ) (wait : Wait) → slice_get waits.new.items n ≡ Some wait
        → at ready.new.pairs n ≡ (if is_that n parent then ready_after wait.open else at ready.old.pairs n) }
    ensures others { (n : ℕ) → is_that n parent ≡ false → at ready.new.pairs n ≡ at ready.old.pairs n }
    ensures len { vec_len waits.new ≡ vec_len waits.old }
    ensures capacity { vec_capacity waits.new ≡ vec_capacity waits.old }
    ensures room { ready.new.room ≡ ready.old.room }
{
    let Some(parent) = parent else {
        return;
    };
    let wait = one_less(waits[parent as usize], failed);
    waits[parent as usize] = wait;
    enter(ready, parent, ready_after(wait.open));
}
