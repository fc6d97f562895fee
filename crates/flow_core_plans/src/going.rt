// Where tasks go once their steps are done (CACAO 2.0, section 4.1).
ghost use Rattle.std.specs.Prelude.{◌≡◌};
ghost use Rattle.std.specs.Option.{option_copied};
ghost use Rattle.flow_core_rules.specs.Tasks.{in_phase, go, is_call, stands_at_call, is_root, exception_of, fail, next_key, finish, child};
ghost use Rattle.flow_core_values.specs.RunFacts.{shown_of, here_of};

use cacao_book::{Step, StepKind};
use cacao_json::Text;
use flow_core_rules::{Phase, Task};
use flow_core_values::{Run, Stand};

/// The task in another phase.
pub(crate) fn in_phase(task: Task, phase: Phase) -> Task
    ensures { result ≡ in_phase task phase }
{
    Task { phase, ..task }
}

fn is_call(kind: &StepKind) -> bool
    ensures { result ≡ is_call kind.now }
{
    matches!(kind, StepKind::PlaybookAction { .. })
}

// Where a step leads that is done.
fn next_key(step: &Step, well: bool) -> Option<&Text>
    ensures { option_copied result ≡ next_key step.now well }
{
    match &step.completion {
        Some(key) => Some(key),
        None => {
            if well {
                step.success.as_ref()
            } else {
                step.failure.as_ref()
            }
        }
    }
}

// The task stands before the step with this key from now on.
fn go(run: &Run, now: u64, task: Task, key: &Text) -> Task
    ensures { result ≡ go run.now.setup now task key.now }
{
    Task {
        step: run.setup.number_of_step(task.book, key),
        step_scope: None,
        phase: Phase::At { since: now },
        ..task
    }
}

fn stands_at_call(run: &Run, t: u32) -> bool
    ensures { result ≡ stands_at_call (shown_of run.now) t }
{
    let Some(task) = run.task(t) else {
        return false;
    };
    match run.setup.step(task.book, task.step) {
        Some(step) => is_call(&step.kind),
        None => false,
    }
}

// Whether the task is the root of a playbook's run.
fn is_root(run: &Run, task: &Task) -> bool
    ensures { result ≡ is_root (shown_of run.now) task.now }
{
    match task.parent {
        Some(parent) => stands_at_call(run, parent),
        None => true,
    }
}

// Where a root goes that fails, if it has not been there.
fn exception_of<'a>(run: &'a Run, task: &Task) -> Option<&'a Text>
    ensures { option_copied result ≡ exception_of (shown_of run.now) task.now }
{
    if task.excepted || !is_root(run, task) {
        return None;
    }
    run.setup.exception(task.book)
}

fn fail(run: &Run, now: u64, task: Task) -> Task
    ensures { result ≡ fail (shown_of run.now) now task }
{
    match exception_of(run, &task) {
        Some(key) => Task {
            excepted: true,
            ..go(run, now, task, key)
        },
        None => in_phase(task, Phase::Ended { well: false }),
    }
}

/// The task once its step is done, well or not. It takes no memory.
pub(crate) fn finish(run: &Run, stand: Stand<'_>, well: bool) -> Task
    ensures { result ≡ finish (here_of (shown_of run.now) stand.entry) well }
{
    match next_key(stand.step, well) {
        Some(key) => go(run, stand.now, stand.task, key),
        None => {
            if well {
                in_phase(stand.task, Phase::Ended { well: true })
            } else {
                fail(run, stand.now, stand.task)
            }
        }
    }
}

/// The task that this one makes: before the step with this key of a playbook, in a scope. It takes no memory.
pub(crate) fn child(run: &Run, stand: Stand<'_>, book: u32, scope: u32, key: &Text) -> Task
    ensures { result ≡ child (here_of (shown_of run.now) stand.entry) book scope key.now }
{
    Task {
        parent: Some(stand.number),
        book,
        step: run.setup.number_of_step(book, key),
        scope,
        step_scope: None,
        phase: Phase::At { since: stand.now },
        excepted: false,
    }
}
