// The entries of a run behind its first.
ghost use Rattle.std.specs.Prelude.{◌≡◌, ◌<◌, ◌≤◌, length, take, true, false, Ok, IfErr, OnOk};
ghost use Rattle.flow_engine_history.specs.Replays.{CannotFollow};
ghost use Rattle.flow_engine_reports.specs.Replaying.{IsReplayed, RefusesNext, StopsReplay, TakesEntry};

use crate::error::ReportError;
use flow_core::{Flow, FlowError};
use run_journal::Journal;
use run_records::read_record;
use std::alloc::Global;

/// Takes the records of the entries behind the first one.
pub(crate) fn replay(alloc: Global, journal: &Journal, flow: &mut Flow) -> Result<(), ReportError>
    requires some { 1 ≤ length journal.now.items }
    requires begun { IsReplayed flow.old.seen.given flow.old.seen.run (take 1 journal.now.items) flow.old }
    ensures ok { OnOk result (IsReplayed flow.old.seen.given flow.old.seen.run journal.now.items flow.new) }
    ensures refused { IfErr result (StopsReplay flow.old.seen.given flow.old.seen.run journal.now.items) }
{
    for n in 1..journal.count() {
        flow.law();
        match take_next(alloc, flow, journal.entry(n)) {
            Ok(true) => {}
            Ok(false) => {
                return Err(ReportError::Damaged {
                    place: journal.place(n),
                });
            }
            Err(error) => return Err(error),
        }
    }
    Ok(())
}

/// Takes the record of an entry; false where it is none, or may not come next.
fn take_next(alloc: Global, flow: &mut Flow, entry: &[u8]) -> Result<bool, ReportError>
    requires few { flow.old.count < 100_000_000 }
    ensures taken { result ≡ Ok true → TakesEntry flow.old entry.now flow.new }
    ensures bad { result ≡ Ok false → CannotFollow flow.old entry.now }
    ensures refused { IfErr result (RefusesNext flow.old entry.now) }
{
    let item = match read_record(alloc, entry) {
        Ok(Some(item)) => item,
        Ok(None) => return Ok(false),
        Err(_) => return Err(ReportError::Memory),
    };
    match flow.take(&item) {
        Ok(()) => Ok(true),
        Err(FlowError::NotEnabled) => Ok(false),
        Err(FlowError::Limit { .. }) => Err(ReportError::TooManyTasks),
        Err(FlowError::Memory) => Err(ReportError::Memory),
    }
}
