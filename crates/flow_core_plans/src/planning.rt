// The edits of each record.
ghost use Rattle.std.specs.Prelude.{◌≡◌, ◌&&◌, ◌==◌, ◌++◌, IfOk, IfSome, OnOk, map, nat_le, nat_eq, option_map};
ghost use Rattle.std.specs.Str.{bytes_eq};
ghost use Rattle.std.specs.Cmp.Lexicographic.{pointwise};
ghost use Rattle.run_records.specs.Ranges.{last_moment};
ghost use Rattle.flow_core_rules.specs.Runs.{begin_of, first_task, first_edits};
ghost use Rattle.flow_core_rules.specs.Changes.{moment_of, is_in_time, change};
ghost use Rattle.flow_core_rules.specs.Changes.{edits_of as edits_of_record};
ghost use Rattle.flow_core_rules.specs.Edits.{writes};
ghost use Rattle.flow_core_values.specs.Planned.{edits_of, AreDeclared};
ghost use Rattle.flow_core_values.specs.RunFacts.{shown_of, IsWell};
ghost use Rattle.flow_core_plans.specs.Begins.{begins};

use crate::answers::{expire, reply, tell, upgrade};
use crate::issuing::{ask, send};
use crate::walking::walk;
use cacao_book::Book;
use cacao_site::Bytes;
use cacao_vars::{Name, Scope, Word};
use flow_core_rules::{Phase, Task};
use flow_core_values::{Planned, Present, Run};
use run_records::{BytesList, LAST_MOMENT, Record};
use std::alloc::{AllocError, Global};

/// The moment of a record, in milliseconds.
pub fn moment_of(item: &Record) -> u64
    ensures { result ≡ moment_of item.now }
{
    match item {
        Record::Begin { moment, .. } => *moment,
        Record::Walk { moment, .. } => *moment,
        Record::Send { moment, .. } => *moment,
        Record::Reply { moment, .. } => *moment,
        Record::Expire { moment, .. } => *moment,
        Record::Upgrade { moment, .. } => *moment,
        Record::Ask { moment, .. } => *moment,
        Record::Told { moment, .. } => *moment,
    }
}

fn copied(alloc: Global, texts: &[Bytes]) -> Result<Vec<Bytes>, AllocError>
    ensures { IfOk result (λ copy. copy.items ≡ texts.now) }
{
    let mut copy = Vec::new(alloc);
    for text in texts {
        copy.push(text.copy(alloc)?)?;
    }
    Ok(copy)
}

/// The first task, which stands before the start of the first playbook.
fn first_task(run: &Run, now: u64, book: &Book) -> Task
    ensures { result ≡ first_task run.now.setup now book.now }
{
    Task {
        parent: None,
        book: 0,
        step: run.setup.number_of_step(0, &book.start),
        scope: 0,
        step_scope: None,
        phase: Phase::At { since: now },
        excepted: false,
    }
}

/// Adds the writes of the bound texts.
fn add_bound(edits: &mut Vec<Planned>, bound: &[(Name, Word)]) -> Result<(), AllocError>
    ensures edits { OnOk result (edits_of edits.new.items ≡ edits_of edits.old.items ++ map (λ one. writes 0 one.0 one.1) bound.now) }
    ensures declared { AreDeclared edits.old.items → AreDeclared edits.new.items }
{
    for one in bound {
        edits.push(Planned::Writes {
            scope: 0,
            name: one.0.clone()?,
            worth: one.1.clone()?,
        })?;
    }
    Ok(())
}

/// The Begin of this run at a moment.
pub fn begin(run: &Run, alloc: Global, moment: u64) -> Result<Record, AllocError>
    ensures { IfOk result (λ item. item ≡ begin_of run.now.setup run.now.number moment) }
{
    let books = copied(alloc, run.setup.texts())?;
    Ok(Record::Begin {
        run: run.number,
        moment,
        books: BytesList::from_vec(books),
        bind: run.setup.bind().copy(alloc)?,
    })
}

/// The edits of this run's Begin at a moment.
fn first_edits(run: &Run, alloc: Global, now: u64) -> Result<Option<Vec<Planned>>, AllocError>
    ensures edits { IfOk result (λ o. option_map (λ plan. edits_of plan.items) o ≡ first_edits run.now.setup now) }
    ensures declared { IfOk result (λ o. IfSome o (λ plan. AreDeclared plan.items)) }
{
    let Some(book) = run.setup.book(0) else {
        return Ok(None);
    };
    let mut edits = Vec::new(alloc);
    edits.push(Planned::Opens {
        scope: Scope {
            parent: None,
            vars: book.variables.clone()?,
        },
        texts: Present::declared(alloc, &book.variables)?,
    })?;
    add_bound(&mut edits, run.setup.variables())?;
    edits.push(Planned::Makes(first_task(run, now, book)))?;
    Ok(Some(edits))
}

/// Whether a Begin with these fields is this run's.
fn is_own(run: &Run, number: u64, moment: u64, books: &BytesList, bind: &Bytes) -> bool
    ensures { result ≡ (nat_le moment last_moment && (number == run.now.number) && pointwise (pointwise nat_eq) books.now run.now.setup.texts && bytes_eq bind.now run.now.setup.bind) }
{
    moment <= LAST_MOMENT
        && number == run.number
        && books.as_slice() == run.setup.texts()
        && bind.as_slice() == run.setup.bind().as_slice()
}

/// The edits of the first record; None where it is not this run's Begin.
pub fn first_change(
    run: &Run,
    alloc: Global,
    item: &Record,
) -> Result<Option<Vec<Planned>>, AllocError>
    ensures edits { IfOk result (λ o. option_map (λ plan. edits_of plan.items) o ≡ begins (shown_of run.now) item.now) }
    ensures declared { IfOk result (λ o. IfSome o (λ plan. AreDeclared plan.items)) }
{
    match item {
        Record::Begin {
            run: number,
            moment,
            books,
            bind,
        } => {
            if is_own(run, *number, *moment, books, bind) {
                first_edits(run, alloc, *moment)
            } else {
                Ok(None)
            }
        }
        _ => Ok(None),
    }
}

/// The edits of a later record; None where it may not come next. Those of a Walk take the memory of a list that is given.
pub fn change(
    run: &Run,
    alloc: Global,
    spare: Vec<Planned>,
    item: &Record,
) -> Result<Option<Vec<Planned>>, AllocError>
    requires well { IsWell run.now }
    ensures edits { IfOk result (λ o. option_map (λ plan. edits_of plan.items) o ≡ change (shown_of run.now) item.now) }
    ensures declared { IfOk result (λ o. IfSome o (λ plan. AreDeclared plan.items)) }
{
    if !run.is_in_time(moment_of(item)) {
        return Ok(None);
    }
    edits_of(run, alloc, spare, item)
}

fn edits_of(
    run: &Run,
    alloc: Global,
    spare: Vec<Planned>,
    item: &Record,
) -> Result<Option<Vec<Planned>>, AllocError>
    requires well { IsWell run.now }
    ensures edits { IfOk result (λ o. option_map (λ plan. edits_of plan.items) o ≡ edits_of_record (shown_of run.now) item.now) }
    ensures declared { IfOk result (λ o. IfSome o (λ plan. AreDeclared plan.items)) }
{
    match item {
        Record::Begin { .. } => Ok(None),
        Record::Walk { task, moment } => walk(run, alloc, spare, *moment, *task),
        Record::Send {
            task,
            issue,
            agent,
            moment,
            bytes,
        } => send(run, alloc, *moment, *task, *issue, *agent, bytes),
        Record::Reply {
            issue,
            moment,
            status,
            rule,
            text,
        } => reply(run, alloc, *moment, *issue, *status, *rule, text),
        Record::Expire { issue, moment } => expire(run, alloc, *moment, *issue),
        Record::Upgrade { version, .. } => upgrade(run, alloc, *version),
        Record::Ask {
            task,
            issue,
            moment,
            bytes,
        } => ask(run, alloc, *moment, *task, *issue, bytes),
        Record::Told {
            issue,
            moment,
            status,
            text,
        } => tell(run, alloc, *moment, *issue, *status, text),
    }
}
