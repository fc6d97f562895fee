// The replies of the run, each of which is that of an act.
ghost use Rattle.std.specs.Prelude.{◌≡◌, ◌<◌, ◌≤◌, ◌↔◌, length, true, false, Ok, Some, IsTrue, IfOk, IfErr, IfSome, IfNone, OnOk, slice_get};
ghost use Rattle.run_journal.specs.Image.{ArePlaced, bytes_of};
ghost use Rattle.flow_laws.specs.Acts.{ReadsAs};
ghost use Rattle.flow_audit.specs.Breaks.{HasItsAct, RepliesHaveActs};
ghost use Rattle.flow_audit.specs.Files.{acts_of};
ghost use Rattle.flow_audit.specs.Parts.{ActOnce, AreActFiles, AreIndexes, HasAct, HasNoAct, IsActed, IsFlowOf, StopsReplies, lists_of};

use crate::reading::{ActFile, gate};
use crate::running::JournalRun;
use crate::verdict::Stop;
use flow_core::{Flow, accepted_is_runnable};
use oc2_msg::{Answer, ResponseError, read_response};
use run_records::{Act, Record};
use slpf_rules_acts::ActIndex;
use std::alloc::{AllocError, Global};

/// Whether the bytes of a reply read as this status, rule number (0: none) and text.
fn reads_as(
    alloc: Global,
    reply: &[u8],
    status: u16,
    rule: u32,
    text: &[u8],
) -> Result<bool, AllocError>
    requires { length reply.now ≤ 1_048_576 }
    ensures { IfOk result (λ same. IsTrue same ↔ ReadsAs status rule text.now reply.now) }
{
    match read_response(alloc, reply) {
        Ok(answer) => Ok(is_answer(&answer, status, rule, text)),
        Err(ResponseError::Malformed) => Ok(false),
        Err(ResponseError::Memory) => Err(AllocError),
    }
}

fn is_answer(answer: &Answer, status: u16, rule: u32, text: &[u8]) -> bool
    ensures { IsTrue result ↔ (answer.now ≡ record { status = status; rule = rule; text = text.now }) }
{
    if answer.status != status {
        return false;
    }
    if answer.rule != rule {
        return false;
    }
    answer.text.text().as_bytes() == text
}

/// The act of a filter on an issue of a run.
fn find_act<'a>(
    filters: &'a [ActFile],
    indexes: &[ActIndex],
    agent: u8,
    run: u64,
    issue: u32,
) -> Option<&'a Act>
    requires indexes { AreIndexes filters.now indexes.now }
    requires many { length filters.now ≡ 16 }
    ensures some { IfSome result (λ act. HasAct filters.now agent run issue act.now) }
    ensures none { IfNone result (HasNoAct filters.now agent run issue) }
{
    let agent = agent as usize;
    if agent == 0 || agent > filters.len() {
        return None;
    }
    let acts = filters[agent - 1].acts.as_slice();
    match indexes[agent - 1].find(run, issue) {
        Some(place) => Some(act_at(acts, place)),
        None => None,
    }
}

fn act_at(acts: &[Act], place: usize) -> &Act
    requires { place < length acts.now }
    ensures { slice_get acts.now place ≡ Some result.now }
{
    &acts[place]
}

/// Whether an act on an issue of the run has a reply that reads so.
fn is_acted(
    alloc: Global,
    flow: &Flow,
    filters: &[ActFile],
    indexes: &[ActIndex],
    issue: u32,
    status: u16,
    rule: u32,
    text: &[u8],
) -> Result<bool, AllocError>
    requires indexes { AreIndexes filters.now indexes.now }
    requires many { length filters.now ≡ 16 }
    requires files { AreActFiles filters.now }
    requires once { ActOnce filters.now }
    ensures { IfOk result (λ acted. IsTrue acted
        ↔ IsActed flow.now.seen (acts_of (lists_of filters.now)) issue (ReadsAs status rule text.now)) }
{
    if issue >= flow.issues() {
        return Ok(false);
    }
    match find_act(filters, indexes, flow.agent_of(issue), flow.run(), issue) {
        Some(act) => reads_as(alloc, act.reply.as_slice(), status, rule, text),
        None => Ok(false),
    }
}

/// Whether a record is no Reply, or the reply of an act on its issue.
fn check_reply(
    alloc: Global,
    run: &JournalRun,
    filters: &[ActFile],
    indexes: &[ActIndex],
    item: &Record,
) -> Result<bool, AllocError>
    requires flow { IsFlowOf run.now.file.records.items run.now.flow }
    requires indexes { AreIndexes filters.now indexes.now }
    requires many { length filters.now ≡ 16 }
    requires files { AreActFiles filters.now }
    requires once { ActOnce filters.now }
    ensures has { result ≡ Ok true → HasItsAct run.now.file.records.items (acts_of (lists_of filters.now)) item.now }
    ensures lacks { result ≡ Ok false → ¬ HasItsAct run.now.file.records.items (acts_of (lists_of filters.now)) item.now }
{
    let Record::Reply {
        issue,
        status,
        rule,
        text,
        ..
    } = item
    else {
        return Ok(true);
    };
    let Some(flow) = &run.flow else {
        return Ok(true);
    };
    accepted_is_runnable();
    is_acted(
        alloc,
        flow,
        filters,
        indexes,
        *issue,
        *status,
        *rule,
        text.as_slice(),
    )
}

/// Tests each Reply of the run.
pub(crate) fn check_replies(
    alloc: Global,
    run: &JournalRun,
    filters: &[ActFile],
    indexes: &[ActIndex],
) -> Result<(), Stop>
    requires flow { IsFlowOf run.now.file.records.items run.now.flow }
    requires placed { ArePlaced run.now.file.entries }
    requires entries { length run.now.file.entries ≡ length run.now.file.records.items }
    requires indexes { AreIndexes filters.now indexes.now }
    requires many { length filters.now ≡ 16 }
    requires files { AreActFiles filters.now }
    requires once { ActOnce filters.now }
    ensures have { OnOk result (RepliesHaveActs run.now.file.records.items (acts_of (lists_of filters.now)) run.now.file.records.items) }
    ensures stops { IfErr result (StopsReplies (bytes_of run.now.file.entries) run.now.file.records.items (acts_of (lists_of filters.now))) }
{
    let records = run.file.records.as_slice();
    for n in 0..records.len() {
        if !check_reply(alloc, run, filters, indexes, &records[n])? {
            return Err(Stop::No {
                file: 0,
                place: gate(&run.file.entries, n),
            });
        }
    }
    Ok(())
}
