// The parts of an append: all memory first, then the disk, then the run.
ghost use Rattle.std.specs.Prelude.{◌≡◌, ◌≢◌, ◌++◌, ◌∷◌, ◌<◌, ◌≤◌, [], List, Option, None, Some, Err, true, false, IfErr, IfOk, IsSome, OnErr, OnOk, length, option_and_then, vec_capacity, vec_len};
ghost use Rattle.cacao_site.specs.DiskCalls.{AllLeft};
ghost use Rattle.run_journal.specs.Durable.{IsImage, MayAppend};
ghost use Rattle.run_records.specs.Layout.{layout};
ghost use Rattle.run_records.specs.Ranges.{InRange};
ghost use Rattle.flow_core_rules.specs.Edits.{Edit};
ghost use Rattle.flow_core_rules.specs.Moves.{record_of};
ghost use Rattle.flow_core.specs.Views.{AsksText, IsReadyFor, Refuses, Takes, View, passed, taken, taken_by};
ghost use Rattle.flow_core.specs.declared.flow_errors.FlowError.TheVariants.{NotEnabled};
ghost use Rattle.flow_engine_history.specs.Appending.{IsSameFlow, IsSameJournal, RefusesEntry, RefusesRoom, length_with_entry};
ghost use Rattle.flow_engine_history.specs.HistoryCalls.{MayMove};
ghost use Rattle.flow_engine_history.specs.KeptHistory.{narrow, stand_before};
ghost use Rattle.flow_engine_history.specs.declared.error.EngineError.TheVariants.{Memory};

use crate::error::EngineError;
use crate::history::{NOWHERE, Stand};
use cacao_site::{Bytes, Disk};
use flow_core::{Flow, FlowError, Move};
use run_journal::Journal;
use run_records::{Record, write_record};
use std::alloc::{AllocError, Global};

/// A record for which there is room: its entry in the journal and, of a Walk, the step at which its task stands.
#[derive(Drop)]
pub(crate) struct Made {
    pub(crate) entry: Bytes,
    pub(crate) stand: Stand,
}

/// What a refusal of a flow means for the engine, of a record that may come next.
fn refusal_of(error: FlowError) -> EngineError
    requires { error ≢ NotEnabled }
    ensures { (v : View) (edits : Option (List Edit)) → Refuses v error edits → RefusesRoom v edits result }
{
    match error {
        FlowError::NotEnabled => unreachable!(),
        FlowError::Limit { what } => EngineError::Limit { what },
        FlowError::Memory => EngineError::Memory,
    }
}

/// Takes the memory that the flow needs for a record that may come next.
fn make_ready(flow: &mut Flow, next: &Record) -> Result<(), EngineError>
    requires comes { IsSome (taken flow.old next.now) }
    requires few { flow.old.count < 100_000_000 }
    ensures ready { OnOk result (IsReadyFor flow.new next.now) }
    ensures within { OnOk result (option_and_then (passed flow.old.seen) (taken flow.old next.now) ≡ None) }
    ensures refused { IfErr result (RefusesRoom flow.old (taken flow.old next.now)) }
    ensures same { IsSameFlow flow.old flow.new }
{
    match flow.ready(next) {
        Ok(()) => Ok(()),
        Err(error) => Err(refusal_of(error)),
    }
}

/// Makes the record of a move that may come next, and takes the memory that the flow needs for it.
fn ready_move(flow: &mut Flow, step: Move, moment: u64) -> Result<Record, EngineError>
    requires comes { IsSome (taken_by flow.old moment step) }
    requires few { flow.old.count < 100_000_000 }
    ensures made { IfOk result (λ next. record_of flow.old.seen moment step ≡ Some next) }
    ensures text { IfOk result AsksText }
    ensures ready { IfOk result (IsReadyFor flow.new) }
    ensures within { OnOk result (option_and_then (passed flow.old.seen) (taken_by flow.old moment step) ≡ None) }
    ensures refused { IfErr result (RefusesRoom flow.old (taken_by flow.old moment step)) }
    ensures same { IsSameFlow flow.old flow.new }
{
    match flow.ready_move(step, moment) {
        Ok(next) => Ok(next),
        Err(error) => Err(refusal_of(error)),
    }
}

/// These numbers in 16 bits each; `NOWHERE` where there are none, or one of them is larger.
fn narrow(stand: Option<(u32, u32)>) -> Stand
    ensures { result ≡ narrow stand }
{
    let Some((book, step)) = stand else {
        return NOWHERE;
    };
    if book <= 65_535 && step <= 65_535 {
        (book as u16, step as u16)
    } else {
        NOWHERE
    }
}

/// The step at which the task of a Walk stands.
pub(crate) fn stand_for(flow: &Flow, next: &Record) -> Stand
    ensures { result ≡ stand_before flow.now.seen next.now }
{
    match next {
        Record::Walk { task, .. } => narrow(flow.stand_of(*task)),
        _ => NOWHERE,
    }
}

/// Makes room for one entry more like this, and for one stand more.
fn make_room(
    journal: &mut Journal,
    stands: &mut Vec<Stand>,
    entry: &Bytes,
) -> Result<(), EngineError>
    requires { length entry.now ≤ 17_829_888 }
    ensures spare { OnOk result (length entry.now < journal.new.spare) }
    ensures room { OnOk result (vec_len stands.new < vec_capacity stands.new) }
    ensures memory { OnErr result (result ≡ Err Memory) }
    ensures same { IsSameJournal journal.old journal.new }
    ensures stands { stands.new.items ≡ stands.old.items }
{
    journal.reserve(entry.len() as u32)?;
    stands.reserve(1)?;
    Ok(())
}

/// The entry of a record, with room for it and for its stand.
fn make_entry(
    alloc: Global,
    flow: &Flow,
    journal: &mut Journal,
    stands: &mut Vec<Stand>,
    next: &Record,
) -> Result<Made, EngineError>
    requires { InRange next.now }
    ensures entry { IfOk result (λ made. made.entry ≡ layout next.now) }
    ensures size { IfOk result (λ made. length made.entry ≤ 17_829_888) }
    ensures spare { IfOk result (λ made. length made.entry < journal.new.spare) }
    ensures stand { IfOk result (λ made. made.stand ≡ stand_before flow.now.seen next.now) }
    ensures room { OnOk result (vec_len stands.new < vec_capacity stands.new) }
    ensures memory { OnErr result (result ≡ Err Memory) }
    ensures same { IsSameJournal journal.old journal.new }
    ensures stands { stands.new.items ≡ stands.old.items }
{
    let stand = stand_for(flow, next);
    let entry = match write_record(alloc, next) {
        Ok(entry) => entry,
        Err(_) => return Err(EngineError::Memory),
    };
    match make_room(journal, stands, &entry) {
        Ok(()) => Ok(Made { entry, stand }),
        Err(_) => Err(EngineError::Memory),
    }
}

/// Takes all memory that a record needs which may come next.
pub(crate) fn prepare(
    alloc: Global,
    flow: &mut Flow,
    journal: &mut Journal,
    stands: &mut Vec<Stand>,
    next: &Record,
) -> Result<Made, EngineError>
    requires in_range { InRange next.now }
    requires comes { IsSome (taken flow.old next.now) }
    requires few { flow.old.count < 100_000_000 }
    ensures entry { IfOk result (λ made. made.entry ≡ layout next.now) }
    ensures size { IfOk result (λ made. length made.entry ≤ 17_829_888) }
    ensures spare { IfOk result (λ made. length made.entry < journal.new.spare) }
    ensures stand { IfOk result (λ made. made.stand ≡ stand_before flow.old.seen next.now) }
    ensures ready { OnOk result (IsReadyFor flow.new next.now) }
    ensures within { OnOk result (option_and_then (passed flow.old.seen) (taken flow.old next.now) ≡ None) }
    ensures room { OnOk result (vec_len stands.new < vec_capacity stands.new) }
    ensures refused { IfErr result (RefusesRoom flow.old (taken flow.old next.now)) }
    ensures same_flow { IsSameFlow flow.old flow.new }
    ensures same_journal { IsSameJournal journal.old journal.new }
    ensures stands { stands.new.items ≡ stands.old.items }
{
    match make_ready(flow, next) {
        Ok(()) => {}
        Err(error) => return Err(error),
    }
    match make_entry(alloc, flow, journal, stands, next) {
        Ok(made) => Ok(made),
        Err(_) => Err(EngineError::Memory),
    }
}

/// The record of a move, for which there is room.
#[derive(Drop)]
pub(crate) struct Moved {
    pub(crate) next: Record,
    pub(crate) made: Made,
}

/// Makes the record of a move, and takes all memory that it needs.
pub(crate) fn prepare_move(
    alloc: Global,
    flow: &mut Flow,
    journal: &mut Journal,
    stands: &mut Vec<Stand>,
    step: Move,
    moment: u64,
) -> Result<Moved, EngineError>
    requires moves { MayMove flow.old step moment }
    requires few { flow.old.count < 100_000_000 }
    ensures next { IfOk result (λ moved. record_of flow.old.seen moment step ≡ Some moved.next) }
    ensures in_range { IfOk result (λ moved. InRange moved.next) }
    ensures entry { IfOk result (λ moved. moved.made.entry ≡ layout moved.next) }
    ensures size { IfOk result (λ moved. length moved.made.entry ≤ 17_829_888) }
    ensures spare { IfOk result (λ moved. length moved.made.entry < journal.new.spare) }
    ensures stand { IfOk result (λ moved. moved.made.stand ≡ stand_before flow.old.seen moved.next) }
    ensures ready { IfOk result (λ moved. IsReadyFor flow.new moved.next) }
    ensures within { OnOk result (option_and_then (passed flow.old.seen) (taken_by flow.old moment step) ≡ None) }
    ensures room { OnOk result (vec_len stands.new < vec_capacity stands.new) }
    ensures refused { IfErr result (RefusesRoom flow.old (taken_by flow.old moment step)) }
    ensures same_flow { IsSameFlow flow.old flow.new }
    ensures same_journal { IsSameJournal journal.old journal.new }
    ensures stands { stands.new.items ≡ stands.old.items }
{
    let next = match ready_move(flow, step, moment) {
        Ok(next) => next,
        Err(error) => return Err(error),
    };
    match make_entry(alloc, flow, journal, stands, &next) {
        Ok(made) => Ok(Moved { next, made }),
        Err(_) => Err(EngineError::Memory),
    }
}

/// Adds a stand, for which there is room.
fn push_in_room(stands: &mut Vec<Stand>, stand: Stand)
    requires { vec_len stands.old < vec_capacity stands.old }
    ensures { stands.new.items ≡ stands.old.items ++ stand ∷ [] }
{
    match stands.push(stand) {
        Ok(()) => {}
        Err(_) => unreachable!(),
    }
}

/// Makes the record durable, and then goes on to what it leads to. It takes no memory.
pub(crate) fn keep<D: Disk>(
    flow: &mut Flow,
    journal: &mut Journal,
    stands: &mut Vec<Stand>,
    disk: &mut D,
    next: &Record,
    made: Made,
) -> Result<(), EngineError>
    requires ready { IsReadyFor flow.old next.now }
    requires room { vec_len stands.old < vec_capacity stands.old }
    requires size { length made.entry ≤ 17_829_888 }
    requires spare { length made.entry < journal.old.spare }
    requires whole { journal.old.broken ≡ false }
    requires images { AllLeft journal.old.file (D.view disk.old).disk (IsImage journal.old.prepared journal.old.items) }

    ensures appends { MayAppend journal.old made.entry (D.view disk.old) (D.view disk.new) }
    ensures ok { OnOk result (journal.new
        ≡ record journal.old { items = journal.old.items ++ made.entry ∷ []; prepared = true; spare = 0 }) }
    ensures images { OnOk result (AllLeft journal.old.file (D.view disk.new).disk
        (IsImage true (journal.old.items ++ made.entry ∷ []))) }
    ensures takes { OnOk result (Takes flow.old next.now flow.new) }
    ensures stands { OnOk result (stands.new.items ≡ stands.old.items ++ made.stand ∷ []) }
    ensures fits { OnOk result (length_with_entry journal.old made.entry ≤ 67_108_864) }

    ensures flow_stays { OnErr result (flow.new ≡ flow.old) }
    ensures stands_stay { OnErr result (stands.new.items ≡ stands.old.items) }
    ensures file { OnErr result (journal.new.file ≡ journal.old.file) }
    ensures items { OnErr result (journal.new.items ≡ journal.old.items) }
    ensures refused { IfErr result (λ error. RefusesEntry journal.old journal.new made.entry error
        (D.view disk.old) (D.view disk.new)) }
    ensures steady { result ≢ Err EngineError.Disk → (D.view disk.new).disk.faults ≡ (D.view disk.old).disk.faults }
{
    let Made { entry, stand } = made;
    match journal.append_durably(disk, entry) {
        Ok(()) => {
            flow.apply(next);
            push_in_room(stands, stand);
            Ok(())
        }
        Err(error) => Err(EngineError::from(error)),
    }
}
