// The acts of the filters.
ghost use Rattle.std.specs.Prelude.{◌≡◌, ◌+◌, ◌<◌, ◌↔◌, length, take, true, false, Ok, Some, IsTrue, IfOk, IfErr, slice_get};
ghost use Rattle.std.specs.List.{AllByRecursion};
ghost use Rattle.run_journal.specs.Image.{bytes_of};
ghost use Rattle.run_records.specs.declared.act.Act.{Act};
ghost use Rattle.run_records.specs.Ranges.{ActInRange};
ghost use Rattle.slpf_rules_acts.specs.Acts.{table_of};
ghost use Rattle.flow_laws.specs.Images.{IsAgent};
ghost use Rattle.flow_laws.specs.Journals.{IsSent, run_of};
ghost use Rattle.flow_audit.specs.Breaks.{ActsFit, FitsAct};
ghost use Rattle.flow_audit.specs.Index.{ArePlacesOf};
ghost use Rattle.flow_audit.specs.Parts.{AllActsFit, AreActFiles, AreIndexes, HasIssue, IsActFile, IsFlowOf, StopsActs, StopsFilters};

use crate::reading::{ActFile, gate};
use crate::replying::reply_to;
use crate::running::JournalRun;
use crate::verdict::Stop;
use flow_core::{Flow, accepted_is_runnable};
use run_records::Act;
use slpf_rules::Table;
use slpf_rules_acts::ActIndex;
use std::alloc::{AllocError, Global};

/// Whether an issue is there, with this filter and these bytes.
fn has_issue(flow: &Flow, issue: u32, agent: u8, bytes: &[u8]) -> bool
    ensures { IsTrue result ↔ HasIssue flow.now.seen issue agent bytes.now }
{
    if issue >= flow.issues() {
        return false;
    }
    if flow.agent_of(issue) != agent {
        return false;
    }
    flow.bytes_of(issue) == bytes
}

/// Whether an act of a filter is of another run than the journal's, or on a Send to it.
fn is_sent(run: &JournalRun, agent: u8, act: &Act) -> bool
    requires flow { IsFlowOf run.now.file.records.items run.now.flow }
    requires agent { IsAgent agent }
    ensures sent { result ≡ true → run_of run.now.file.records.items ≡ Some act.now.run
        → IsSent run.now.file.records.items act.now.issue agent act.now.command }
    ensures unsent { result ≡ false → ¬ (run_of run.now.file.records.items ≡ Some act.now.run
        → IsSent run.now.file.records.items act.now.issue agent act.now.command) }
{
    let Some(flow) = &run.flow else {
        return true;
    };
    if flow.run() != act.run {
        return true;
    }
    accepted_is_runnable();
    has_issue(flow, act.issue, agent, act.command.as_slice())
}

/// Whether this act fits behind those before it, whose places and rules are kept; then it is kept too.
fn check_act(
    alloc: Global,
    run: &JournalRun,
    agent: u8,
    acts: &[Act],
    n: usize,
    index: &mut ActIndex,
    table: &mut Table,
) -> Result<bool, AllocError>
    requires flow { IsFlowOf run.now.file.records.items run.now.flow }
    requires agent { IsAgent agent }
    requires there { n < length acts.now }
    requires ranges { AllByRecursion ActInRange acts.now }
    requires index { ArePlacesOf (take n acts.now) index.old }
    requires table { table.old ≡ table_of (take n acts.now) }
    ensures fits { result ≡ Ok true → (act : Act) → slice_get acts.now n ≡ Some act
        → FitsAct run.now.file.records.items agent (take n acts.now) act }
    ensures index { result ≡ Ok true → ArePlacesOf (take (n + 1) acts.now) index.new }
    ensures table { result ≡ Ok true → table.new ≡ table_of (take (n + 1) acts.now) }
    ensures breaks { result ≡ Ok false → (act : Act) → slice_get acts.now n ≡ Some act
        → ¬ FitsAct run.now.file.records.items agent (take n acts.now) act }
{
    let act = &acts[n];
    if index.find(act.run, act.issue).is_some() {
        return Ok(false);
    }
    if !is_sent(run, agent, act) {
        return Ok(false);
    }
    let text = reply_to(alloc, table, act.command.as_slice(), act.moment)?;
    if text != act.reply {
        return Ok(false);
    }
    index.insert(act.run, act.issue, n)?;
    Ok(true)
}

/// The places of the acts of a filter, each of which fits behind those before it.
fn check_acts(alloc: Global, run: &JournalRun, agent: u8, file: &ActFile) -> Result<ActIndex, Stop>
    requires flow { IsFlowOf run.now.file.records.items run.now.flow }
    requires agent { IsAgent agent }
    requires file { IsActFile file.now }
    ensures fit { IfOk result (λ index. ActsFit run.now.file.records.items agent file.now.acts.items) }
    ensures index { IfOk result (ArePlacesOf file.now.acts.items) }
    ensures stops { IfErr result (StopsActs agent (bytes_of file.now.entries) run.now.file.records.items file.now.acts.items) }
{
    let mut index = ActIndex::new(alloc);
    let mut table = Table::new(alloc);
    let acts = file.acts.as_slice();
    for n in 0..acts.len() {
        if !check_act(alloc, run, agent, acts, n, &mut index, &mut table)? {
            return Err(Stop::No {
                file: agent,
                place: gate(&file.entries, n),
            });
        }
    }
    Ok(index)
}

/// The places of the acts of all filters, the least filter first.
pub(crate) fn check_filters(
    alloc: Global,
    run: &JournalRun,
    filters: &[ActFile],
) -> Result<Vec<ActIndex>, Stop>
    requires flow { IsFlowOf run.now.file.records.items run.now.flow }
    requires many { length filters.now ≡ 16 }
    requires files { AreActFiles filters.now }
    ensures fit { IfOk result (λ indexes. AllActsFit run.now.file.records.items filters.now) }
    ensures indexes { IfOk result (λ indexes. AreIndexes filters.now indexes.items) }
    ensures stops { IfErr result (StopsFilters run.now.file.records.items filters.now) }
{
    let mut indexes = Vec::new(alloc);
    for k in 0..filters.len() {
        match check_acts(alloc, run, k as u8 + 1, &filters[k]) {
            Ok(index) => indexes.push(index)?,
            Err(stop) => return Err(stop),
        }
    }
    Ok(indexes)
}
