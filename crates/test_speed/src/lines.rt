// The lines of records.
ghost use Rattle.flow_core.specs.Views.{IsReadyFor};

use cacao_text::canonical_string;
use flow_core::Flow;
use run_records::Record;
use std::alloc::{AllocError, Global};
use std::str::from_utf8;

/// The text with these bytes; the empty text where they are no UTF-8.
pub(crate) fn text_of(bytes: &[u8]) -> &str {
    match from_utf8(bytes) {
        Ok(text) => text,
        Err(_) => "",
    }
}

/// The moment of a record, in milliseconds.
fn moment_of(item: &Record) -> u64 {
    match item {
        Record::Begin { moment, .. } => *moment,
        Record::Walk { moment, .. } => *moment,
        Record::Send { moment, .. } => *moment,
        Record::Reply { moment, .. } => *moment,
        Record::Expire { moment, .. } => *moment,
        Record::Upgrade { moment, .. } => *moment,
        Record::Ask { moment, .. } => *moment,
        Record::Told { moment, .. } => *moment,
    }
}

/// What is said of a question.
fn question(alloc: Global, issue: u32, bytes: &[u8]) -> Result<String, AllocError> {
    let quoted = canonical_string(alloc, text_of(bytes))?;
    let text = text_of(quoted.as_slice());
    format!(in alloc; "ask {issue} {text}")
}

/// What is said of a record that no task makes by itself.
fn words_of_answer(alloc: Global, item: &Record) -> Result<String, AllocError> {
    match item {
        Record::Begin { run, .. } => format!(in alloc; "begin {run}"),
        Record::Reply { issue, status, .. } => format!(in alloc; "reply {issue} {status}"),
        Record::Told { issue, status, .. } => format!(in alloc; "told {issue} {status}"),
        Record::Expire { issue, .. } => format!(in alloc; "expire {issue}"),
        _ => Ok(String::new(alloc)),
    }
}

/// What is said of a record.
fn words(alloc: Global, flow: &Flow, item: &Record) -> Result<String, AllocError>
    requires { IsReadyFor flow.now item.now }
{
    match item {
        Record::Walk { task, .. } => {
            let key = flow.step_of(*task);
            format!(in alloc; "walk {task} {key}")
        }
        Record::Send { issue, agent, .. } => format!(in alloc; "send {issue} {agent}"),
        Record::Ask { issue, bytes, .. } => question(alloc, *issue, bytes.as_slice()),
        Record::Upgrade { version, .. } => format!(in alloc; "upgrade {version}"),
        _ => words_of_answer(alloc, item),
    }
}

/// The line of the record with this number, for which the flow is ready.
pub(crate) fn line(
    alloc: Global,
    flow: &Flow,
    number: u32,
    item: &Record,
) -> Result<String, AllocError>
    requires { IsReadyFor flow.now item.now }
{
    let moment = moment_of(item);
    let words = words(alloc, flow, item)?;
    format!(in alloc; "{number} {moment} {words}")
}
