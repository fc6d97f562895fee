// The opening of a run.
ghost use Rattle.std.specs.Prelude.{◌≡◌, ◌≢◌, ◌+◌, ◌/◌, ◌<◌, ◌≤◌, ◌↔◌, [], length, take, false, true, IsTrue, Ok, Err, None, Some, IfOk, IfErr, IfSome, IfNone, OnOk, slice_get};
ghost use Rattle.std.specs.Option.{option_copied};
ghost use Rattle.cacao_site.specs.DiskCalls.{IsDurable, IsLeft, OnlyFile};
ghost use Rattle.run_records.specs.Ranges.{InRange};
ghost use Rattle.flow_core.specs.Views.{blank_shown, taken};
ghost use Rattle.flow_engine_history.specs.Books.{IsFirstOther};
ghost use Rattle.flow_engine_history.specs.HistoryView.{HoldsRecords, IsReady, entries_of};
ghost use Rattle.flow_engine_history.specs.Openings.{IsRefusedOpening};
ghost use Rattle.flow_engine_history.specs.Replays.{CannotFollow, IsBeginOf, IsReplayed, RefusesBegin, RefusesFirst, RefusesMoment, RefusesNext, RefusesRecord, RefusesReplay, RefusesTexts, TakesEntry, TakesRecord};

use crate::appending::stand_for;
use crate::error::EngineError;
use crate::history::{History, Stand};
use cacao_site::{Bytes, Disk};
use flow_core::{Flow, FlowError, LimitKind, Setup, setup_law};
use run_journal::Journal;
use run_records::{BytesList, Record, read_record};
use std::alloc::Global;

/// The place of the gate of the first entry of a file, in bytes.
pub const FIRST_GATE: u64 = 8;

impl History {
    /// Opens file 0 for the run of that number of what is given: it syncs, reads the entries in one pass, and takes their records
    /// one after another. It writes nothing.
    ///
    /// `Damaged` comes where the bytes stand for no list or the first entry is no Begin; then `OtherRun` where the Begin has
    /// another number; then `OtherBook` where it has other texts; then `Damaged` where its moment is past the last one. Then the first
    /// later entry counts that is no record that may come next, which is `Damaged` too, or whose record would make more than
    /// 1,000,000 tasks, which is `Limit`.
    pub fn open_on<D: Disk>(
        alloc: Global,
        disk: &mut D,
        setup: Setup,
        run: u64,
    ) -> Result<History, EngineError>
        // Each image on the way was one before.
        ensures only { OnlyFile 0 (D.view disk.old) (D.view disk.new)
            (IsLeft (D.view disk.old).disk 0 (D.view disk.old).disk.beat) }
        ensures calls { IsTrue (D.view disk.old).disk.told
            → (D.view disk.new).disk.calls
            ≤ (D.view disk.old).disk.calls + 3 + length ((D.view disk.new).disk.reads 0) / 4096 }
        ensures bytes { (D.view disk.new).disk.written ≤ (D.view disk.old).disk.written }
        // Unless the disk failed, the file reads as before.
        ensures reads { result ≢ Err EngineError.Disk → (D.view disk.new).disk.reads 0 ≡ (D.view disk.old).disk.reads 0 }

        // The one image then stands for the records.
        ensures ready { IfOk result (λ history. IsReady history (D.view disk.new)) }
        ensures durable { IfOk result (λ history. IsDurable 0 (D.view disk.new).disk) }
        ensures stands { IfOk result (λ history. IsTrue (D.view disk.old).disk.told
            → HoldsRecords history.records ((D.view disk.new).disk.reads 0)) }
        ensures prepared { IfOk result (λ history. IsTrue (D.view disk.old).disk.told
            → IsTrue history.prepared ↔ (9 < length ((D.view disk.new).disk.reads 0))) }
        ensures given { IfOk result (λ history. history.seen.given ≡ setup) }
        ensures run { IfOk result (λ history. history.seen.run ≡ run) }
        ensures whole { IfOk result (λ history. history.broken ≡ false) }

        ensures refused { IfErr result (λ error. IsRefusedOpening setup run error (D.view disk.old) (D.view disk.new)) }
        ensures steady { result ≢ Err EngineError.Disk → (D.view disk.new).disk.faults ≡ (D.view disk.old).disk.faults }
    {
        let journal = match Journal::open_on(alloc, disk, 0) {
            Ok(journal) => journal,
            Err(error) => return Err(EngineError::from(error)),
        };
        let mut flow = Flow::idle(alloc, setup, run);
        let mut stands = Vec::new(alloc);
        match replay(alloc, &journal, run, &mut flow, &mut stands) {
            Ok(()) => Ok(opened(alloc, journal, flow, stands)),
            Err(error) => Err(error),
        }
    }
}

/// The run of these entries.
fn opened(alloc: Global, journal: Journal, flow: Flow, stands: Vec<Stand>) -> History
    requires file { journal.file ≡ 0 }
    requires replayed { IsReplayed flow.seen.given flow.seen.run journal.items flow stands.items }
    ensures entries { entries_of result.records ≡ journal.items }
    ensures seen { result.seen ≡ flow.seen }
    ensures prepared { result.prepared ≡ journal.prepared }
    ensures broken { result.broken ≡ journal.broken }
{
    History {
        alloc,
        journal,
        flow,
        stands,
    }
}

/// Takes the records of the entries.
fn replay(
    alloc: Global,
    journal: &Journal,
    run: u64,
    flow: &mut Flow,
    stands: &mut Vec<Stand>,
) -> Result<(), EngineError>
    requires count { flow.old.count ≡ 0 }
    requires blank { flow.old.seen ≡ blank_shown flow.old.seen.given run }
    requires stands { stands.old.items ≡ [] }
    ensures ok { OnOk result (IsReplayed flow.old.seen.given run journal.now.items flow.new stands.new.items) }
    ensures refused { IfErr result (RefusesReplay flow.old.seen.given run journal.now.items) }
{
    if journal.count() == 0 {
        return Ok(());
    }
    match begin(alloc, flow, stands, run, journal.entry(0)) {
        Ok(()) => replay_others(alloc, journal, flow, stands),
        Err(error) => Err(error),
    }
}

/// Takes the records of the entries behind the first one.
fn replay_others(
    alloc: Global,
    journal: &Journal,
    flow: &mut Flow,
    stands: &mut Vec<Stand>,
) -> Result<(), EngineError>
    requires some { 1 ≤ length journal.now.items }
    requires begun { IsReplayed flow.old.seen.given flow.old.seen.run (take 1 journal.now.items) flow.old stands.old.items }
    ensures ok { OnOk result (IsReplayed flow.old.seen.given flow.old.seen.run journal.now.items flow.new stands.new.items) }
    ensures refused { IfErr result (RefusesReplay flow.old.seen.given flow.old.seen.run journal.now.items) }
{
    for n in 1..journal.count() {
        flow.law();
        match take_next(alloc, flow, stands, journal.entry(n)) {
            Ok(true) => {}
            Ok(false) => {
                return Err(EngineError::Damaged {
                    place: journal.place(n),
                });
            }
            Err(error) => return Err(error),
        }
    }
    Ok(())
}

/// Takes the record of the first entry, which is to be the Begin of the run.
fn begin(
    alloc: Global,
    flow: &mut Flow,
    stands: &mut Vec<Stand>,
    run: u64,
    entry: &[u8],
) -> Result<(), EngineError>
    requires count { flow.old.count ≡ 0 }
    requires blank { flow.old.seen ≡ blank_shown flow.old.seen.given run }
    ensures ok { OnOk result (TakesEntry flow.old stands.old.items entry.now flow.new stands.new.items) }
    ensures refused { IfErr result (RefusesFirst flow.old.seen.given run entry.now) }
{
    let Some(item) = read_record(alloc, entry)? else {
        return Err(EngineError::Damaged { place: FIRST_GATE });
    };
    match check_begin(flow.setup(), run, &item) {
        Ok(()) => take_first(flow, stands, run, &item),
        Err(error) => Err(error),
    }
}

/// Takes the Begin of the run.
fn take_first(
    flow: &mut Flow,
    stands: &mut Vec<Stand>,
    run: u64,
    item: &Record,
) -> Result<(), EngineError>
    requires count { flow.old.count ≡ 0 }
    requires blank { flow.old.seen ≡ blank_shown flow.old.seen.given run }
    requires in_range { InRange item.now }
    requires begins { IsBeginOf flow.old.seen.given run item.now }
    ensures ok { OnOk result (TakesRecord flow.old stands.old.items item.now flow.new stands.new.items) }
    ensures refused { IfErr result (RefusesMoment item.now) }
{
    setup_law(flow.setup());
    match take_record(flow, stands, item) {
        Ok(true) => Ok(()),
        Ok(false) => Err(EngineError::Damaged { place: FIRST_GATE }),
        Err(error) => Err(error),
    }
}

/// Takes the record of an entry behind the first one; false where it may not come next.
fn take_next(
    alloc: Global,
    flow: &mut Flow,
    stands: &mut Vec<Stand>,
    entry: &[u8],
) -> Result<bool, EngineError>
    requires few { flow.old.count < 100_000_000 }
    ensures taken { result ≡ Ok true → TakesEntry flow.old stands.old.items entry.now flow.new stands.new.items }
    ensures bad { result ≡ Ok false → CannotFollow flow.old entry.now }
    ensures refused { IfErr result (RefusesNext flow.old entry.now) }
{
    let Some(item) = read_record(alloc, entry)? else {
        return Ok(false);
    };
    take_record(flow, stands, &item)
}

/// Takes a record; false where it may not come next.
fn take_record(flow: &mut Flow, stands: &mut Vec<Stand>, item: &Record) -> Result<bool, EngineError>
    requires few { flow.old.count < 100_000_000 }
    requires in_range { InRange item.now }
    ensures taken { result ≡ Ok true → TakesRecord flow.old stands.old.items item.now flow.new stands.new.items }
    ensures bad { result ≡ Ok false → taken flow.old item.now ≡ None }
    ensures refused { IfErr result (RefusesRecord flow.old item.now) }
{
    let stand = stand_for(flow, item);
    match flow.take(item) {
        Ok(()) => {}
        Err(FlowError::NotEnabled) => return Ok(false),
        Err(FlowError::Limit { .. }) => {
            return Err(EngineError::Limit {
                what: LimitKind::Tasks,
            });
        }
        Err(FlowError::Memory) => return Err(EngineError::Memory),
    }
    match stands.push(stand) {
        Ok(()) => Ok(true),
        Err(_) => Err(EngineError::Memory),
    }
}

/// Refuses a record that is no Begin of this run; its moment is not judged.
fn check_begin(setup: &Setup, run: u64, item: &Record) -> Result<(), EngineError>
    requires in_range { InRange item.now }
    ensures ok { OnOk result (IsBeginOf setup.now run item.now) }
    ensures refused { IfErr result (RefusesBegin setup.now run item.now) }
{
    let Record::Begin {
        run: held,
        books,
        bind,
        ..
    } = item
    else {
        return Err(EngineError::Damaged { place: FIRST_GATE });
    };
    if *held != run {
        return Err(EngineError::OtherRun {
            held: *held,
            asked: run,
        });
    }
    check_texts(setup, books, bind)
}

/// Refuses other texts.
fn check_texts(setup: &Setup, books: &BytesList, bind: &Bytes) -> Result<(), EngineError>
    requires few { length books.now ≤ 16 }
    ensures ok { OnOk result ((books.now ≡ setup.now.texts) × (bind.now ≡ setup.now.bind)) }
    ensures refused { IfErr result (RefusesTexts books.now bind.now setup.now) }
{
    if let Some(index) = first_other(books.as_slice(), setup.texts()) {
        return Err(EngineError::OtherBook { index });
    }
    if bind != setup.bind() {
        return Err(EngineError::OtherBook {
            index: books.len() as u32,
        });
    }
    Ok(())
}

/// The number of the first text that differs, or that one of the two lists lacks.
fn first_other(held: &[Bytes], asked: &[Bytes]) -> Option<u32>
    requires few { length held.now ≤ 16 }
    ensures some { IfSome result (IsFirstOther held.now asked.now) }
    ensures none { IfNone result (held.now ≡ asked.now) }
{
    for index in 0..held.len() {
        if !has_at(asked, index, &held[index]) {
            return Some(index as u32);
        }
    }
    if held.len() < asked.len() {
        return Some(held.len() as u32);
    }
    None
}

/// Whether a list has a text at this place.
fn has_at(texts: &[Bytes], index: usize, text: &Bytes) -> bool
    ensures { IsTrue result ↔ (slice_get texts.now index ≡ Some text.now) }
{
    match text_at(texts, index) {
        Some(found) => found == text,
        None => false,
    }
}

/// The text at this place.
fn text_at(texts: &[Bytes], index: usize) -> Option<&Bytes>
    ensures { option_copied result ≡ slice_get texts.now index }
{
    texts.get(index)
}
