// The records of a run, told one after another.
ghost use Rattle.std.specs.Prelude.{◌≡◌, ◌<◌, ◌≤◌, [], ℕ, IfErr, IfOk, IsErrOf, MatchOption, OnOk, length, take};
ghost use Rattle.flow_engine_reports.specs.Beginnings.{IsNotBegun};
ghost use Rattle.flow_engine_reports.specs.Replaying.{StopsReplay};
ghost use Rattle.flow_engine_reports.specs.RunFiles.{BreaksOff, Overgrows};
ghost use Rattle.cacao_view_log.specs.Logs.{Logs};
ghost use Rattle.cacao_view_log.specs.Sources.{IsWhole, items_of};
ghost use Rattle.cacao_view_log.specs.Telling.{BeginsLog, IsLogged, TellsFlow};

use crate::beginning::begun;
use crate::form::Form;
use crate::sender::Sender;
use crate::source::Source;
use crate::telling::{tell_next, tell_record};
use crate::told_run::ToldRun;
use cacao_site::Bytes;
use flow_core::Flow;
use flow_engine_history::FIRST_GATE;
use flow_engine_reports::ReportError;
use run_records::read_record;
use std::alloc::{AllocError, Global};

/// What is told of each record of these entries of an engine's file, with its line feed, in order: nothing where there is no entry. The
/// entries are replayed, so that they are the records of a run; else the place of the first is told that is none.
pub fn log(alloc: Global, source: &Source<'_>, form: Form) -> Result<Vec<Bytes>, ReportError>
    requires { IsWhole source.now }
    ensures ok { IfOk result (λ texts. Logs form (items_of source.now) texts.items) }
    ensures damaged { (place : ℕ) → IsErrOf result (ReportError.Damaged place) → BreaksOff (items_of source.now) place }
    ensures tasks { IsErrOf result ReportError.TooManyTasks → Overgrows (items_of source.now) }
{
    if source.count() == 0 {
        return Ok(Vec::new(alloc));
    }
    match log_run(alloc, source, form) {
        Ok(told) => Ok(told.texts),
        Err(error) => Err(error),
    }
}

/// What is told of each record of these entries, at least one, and how their run stands.
fn log_run(alloc: Global, source: &Source<'_>, form: Form) -> Result<ToldRun, ReportError>
    requires whole { IsWhole source.now }
    requires some { 0 < length (items_of source.now) }
    ensures ok { IfOk result (λ told. TellsFlow form (items_of source.now) told.flow told.texts.items) }
    ensures damaged { (place : ℕ) → IsErrOf result (ReportError.Damaged place) → BreaksOff (items_of source.now) place }
    ensures tasks { IsErrOf result ReportError.TooManyTasks → Overgrows (items_of source.now) }
{
    let mut texts = Vec::new(alloc);
    let mut senders = Vec::new(alloc);
    let mut flow = match begin(alloc, form, source.entry(0), &mut texts, &mut senders) {
        Ok(Some(flow)) => flow,
        Ok(None) => return Err(ReportError::Damaged { place: FIRST_GATE }),
        Err(_) => return Err(ReportError::Memory),
    };
    match tell_others(alloc, source, form, &mut flow, &mut texts, &mut senders) {
        Ok(()) => {}
        Err(error) => return Err(error),
    }
    flow.law();
    Ok(ToldRun { texts, flow })
}

/// The run that the first entry begins, whose record is told; None where it is no Begin of what is accepted.
fn begin(
    alloc: Global,
    form: Form,
    entry: &[u8],
    texts: &mut Vec<Bytes>,
    senders: &mut Vec<Sender>,
) -> Result<Option<Flow>, AllocError>
    requires texts { texts.old.items ≡ [] }
    requires senders { senders.old.items ≡ [] }
    ensures { IfOk result (λ o. MatchOption o (IsNotBegun entry.now) (BeginsLog form entry.now texts.new.items senders.new.items)) }
{
    let Some(item) = read_record(alloc, entry)? else {
        return Ok(None);
    };
    let Some(flow) = begun(alloc, &item)? else {
        return Ok(None);
    };
    let text = tell_record(alloc, form, 0, &flow, senders, &item)?;
    texts.push(text)?;
    Ok(Some(flow))
}

/// Tells the records of the entries behind the first one.
fn tell_others(
    alloc: Global,
    source: &Source<'_>,
    form: Form,
    flow: &mut Flow,
    texts: &mut Vec<Bytes>,
    senders: &mut Vec<Sender>,
) -> Result<(), ReportError>
    requires whole { IsWhole source.now }
    requires some { 1 ≤ length (items_of source.now) }
    requires begun { IsLogged form flow.old.seen.given flow.old.seen.run (take 1 (items_of source.now)) flow.old texts.old.items senders.old.items }
    ensures ok { OnOk result (IsLogged form flow.old.seen.given flow.old.seen.run (items_of source.now) flow.new texts.new.items senders.new.items) }
    ensures refused { IfErr result (StopsReplay flow.old.seen.given flow.old.seen.run (items_of source.now)) }
{
    for n in 1..source.count() {
        flow.law();
        match tell_next(alloc, form, n, flow, source.entry(n), texts, senders) {
            Ok(true) => {}
            Ok(false) => {
                return Err(ReportError::Damaged {
                    place: source.place(n),
                });
            }
            Err(error) => return Err(error),
        }
    }
    Ok(())
}
