// The record of one entry, told.
ghost use Rattle.std.specs.Prelude.{◌≡◌, ◌<◌, ◌++◌, [], List, Ok, IfErr, IfOk, OnOk, slice_get, true, false};
ghost use Rattle.std.specs.Option.{option_map_or};
ghost use Rattle.run_records.specs.Ranges.{InRange};
ghost use Rattle.flow_core_rules.specs.Lines.{key_of};
ghost use Rattle.flow_core_rules.specs.State.{Shown};
ghost use Rattle.flow_core.specs.TakenRecords.{Took};
ghost use Rattle.flow_core.specs.Views.{taken};
ghost use Rattle.flow_engine_history.specs.Replays.{CannotFollow};
ghost use Rattle.flow_engine_reports.specs.Replaying.{RefusesNext};
ghost use Rattle.cacao_view_log.specs.Senders.{sender_for, sender_in, sender_of, sender_task, step_key, task_for};
ghost use Rattle.cacao_view_log.specs.Telling.{RefusesRecord, TellsEntry};
ghost use Rattle.cacao_view_log.specs.Texts.{record_text};
ghost use Rattle.cacao_view_log.specs.declared.sender.Sender.{Sender as ASender};

use crate::form::Form;
use crate::line::record_line;
use crate::object::object_line;
use crate::sender::Sender;
use cacao_site::Bytes;
use flow_core::{Flow, FlowError};
use flow_engine_reports::ReportError;
use run_records::{Record, read_record};
use std::alloc::{AllocError, Global};

/// What is told of the record with this number in the run of this number. `sender` is who sent or asked what it answers, tells or ends,
/// and `step` the key of the step at which its task stands.
pub(crate) fn record_text(
    alloc: Global,
    form: Form,
    run: u64,
    n: u32,
    sender: Option<Sender>,
    step: &str,
    item: &Record,
) -> Result<Bytes, AllocError>
    requires { InRange item.now }
    ensures { (before : Shown) (sent : List ASender) → sender ≡ sender_for sent item.now → step.now ≡ step_key before sent item.now
        → IfOk result (λ text. text ≡ record_text form run before sent n item.now) }
{
    match form {
        Form::Line => record_line(alloc, n, step, item),
        Form::Object => object_line(alloc, run, n, sender, step, item),
    }
}

/// Who sent the command of an issue, or asked by it.
fn sender_at(senders: &[Sender], issue: u32) -> Option<Sender>
    ensures { result ≡ slice_get senders.now issue }
{
    match senders.get(issue as usize) {
        Some(sender) => Some(*sender),
        None => None,
    }
}

/// Who sent or asked what a record answers, tells or ends.
fn sender_for(senders: &[Sender], item: &Record) -> Option<Sender>
    ensures { result ≡ sender_for senders.now item.now }
{
    match item {
        Record::Reply { issue, .. } => sender_at(senders, *issue),
        Record::Expire { issue, .. } => sender_at(senders, *issue),
        Record::Told { issue, .. } => sender_at(senders, *issue),
        _ => None,
    }
}

/// The task that sent the command of an issue, or asked by it.
fn sender_task(senders: &[Sender], issue: u32) -> Option<u32>
    ensures { result ≡ sender_task (slice_get senders.now issue) }
{
    match senders.get(issue as usize) {
        Some(sender) => Some(sender.task),
        None => None,
    }
}

/// The task that a record is of.
fn task_for(senders: &[Sender], item: &Record) -> Option<u32>
    ensures { result ≡ task_for senders.now item.now }
{
    match item {
        Record::Walk { task, .. } => Some(*task),
        Record::Send { task, .. } => Some(*task),
        Record::Ask { task, .. } => Some(*task),
        Record::Reply { issue, .. } => sender_task(senders, *issue),
        Record::Expire { issue, .. } => sender_task(senders, *issue),
        Record::Told { issue, .. } => sender_task(senders, *issue),
        _ => None,
    }
}

/// Who sends or asks by a record.
fn sender_of(item: &Record) -> Option<Sender>
    ensures { result ≡ sender_of item.now }
{
    match item {
        Record::Send { task, agent, .. } => Some(Sender {
            task: *task,
            agent: *agent,
        }),
        Record::Ask { task, .. } => Some(Sender {
            task: *task,
            agent: 0,
        }),
        _ => None,
    }
}

/// Notes who sends or asks by a record.
fn note_sender(senders: &mut Vec<Sender>, item: &Record) -> Result<(), AllocError>
    ensures { OnOk result (senders.new.items ≡ senders.old.items ++ sender_in item.now) }
{
    let Some(sender) = sender_of(item) else {
        return Ok(());
    };
    senders.push(sender)?;
    Ok(())
}

/// The key of the step at which a task stands; the empty text where there is no such task.
fn key_at(flow: &Flow, task: u32) -> &str
    ensures { result.now ≡ key_of flow.now.seen task }
{
    match flow.stand_of(task) {
        Some(_) => flow.step_of(task),
        None => "",
    }
}

/// The key of the step at which a task stands, if there is one.
fn key_before(flow: &Flow, task: Option<u32>) -> &str
    ensures { result.now ≡ option_map_or (key_of flow.now.seen) task [] }
{
    match task {
        Some(task) => key_at(flow, task),
        None => "",
    }
}

/// What is told of the record with this number, by what a flow shows and who had sent and asked.
fn next_text(
    alloc: Global,
    form: Form,
    n: u32,
    flow: &Flow,
    senders: &[Sender],
    item: &Record,
) -> Result<Bytes, AllocError>
    requires { InRange item.now }
    ensures { IfOk result (λ text. text ≡ record_text form flow.now.seen.run flow.now.seen senders.now n item.now) }
{
    let step = key_before(flow, task_for(senders, item));
    record_text(
        alloc,
        form,
        flow.run(),
        n,
        sender_for(senders, item),
        step,
        item,
    )
}

/// The same; and it is noted who sends or asks by the record.
pub(crate) fn tell_record(
    alloc: Global,
    form: Form,
    n: u32,
    flow: &Flow,
    senders: &mut Vec<Sender>,
    item: &Record,
) -> Result<Bytes, AllocError>
    requires { InRange item.now }
    ensures text { IfOk result (λ text. text ≡ record_text form flow.now.seen.run flow.now.seen senders.old.items n item.now) }
    ensures noted { OnOk result (senders.new.items ≡ senders.old.items ++ sender_in item.now) }
{
    let text = next_text(alloc, form, n, flow, senders.as_slice(), item)?;
    note_sender(senders, item)?;
    Ok(text)
}

/// Takes a record; false where it may not come next.
pub fn take(flow: &mut Flow, item: &Record) -> Result<bool, ReportError>
    requires few { flow.old.count < 100_000_000 }
    requires in_range { InRange item.now }
    ensures took { result ≡ Ok true → Took flow.old item.now flow.new }
    ensures bad { result ≡ Ok false → taken flow.old item.now ≡ None }
    ensures refused { IfErr result (RefusesRecord flow.old item.now) }
{
    match flow.take(item) {
        Ok(()) => Ok(true),
        Err(FlowError::NotEnabled) => Ok(false),
        Err(FlowError::Limit { .. }) => Err(ReportError::TooManyTasks),
        Err(FlowError::Memory) => Err(ReportError::Memory),
    }
}

/// Takes the record of the entry with this number, and tells it; false where it is none, or may not come next.
pub(crate) fn tell_next(
    alloc: Global,
    form: Form,
    n: u32,
    flow: &mut Flow,
    entry: &[u8],
    texts: &mut Vec<Bytes>,
    senders: &mut Vec<Sender>,
) -> Result<bool, ReportError>
    requires few { flow.old.count < 100_000_000 }
    requires counted { n ≡ flow.old.count }
    ensures told { result ≡ Ok true
        → TellsEntry form flow.old texts.old.items senders.old.items entry.now flow.new texts.new.items senders.new.items }
    ensures bad { result ≡ Ok false → CannotFollow flow.old entry.now }
    ensures refused { IfErr result (RefusesNext flow.old entry.now) }
{
    let item = match read_record(alloc, entry) {
        Ok(Some(item)) => item,
        Ok(None) => return Ok(false),
        Err(_) => return Err(ReportError::Memory),
    };
    let text = match tell_record(alloc, form, n, flow, senders, &item) {
        Ok(text) => text,
        Err(_) => return Err(ReportError::Memory),
    };
    match take(flow, &item) {
        Ok(true) => {}
        Ok(false) => return Ok(false),
        Err(error) => return Err(error),
    }
    match texts.push(text) {
        Ok(()) => Ok(true),
        Err(_) => Err(ReportError::Memory),
    }
}
