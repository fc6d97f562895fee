// The run that the records are.
ghost use Rattle.std.specs.Prelude.{◌≡◌, ◌<◌, ◌≤◌, length, take, IfOk, IfErr};
ghost use Rattle.std.specs.List.{AllByRecursion};
ghost use Rattle.run_journal.specs.Image.{ArePlaced, bytes_of};
ghost use Rattle.run_records.specs.Ranges.{InRange};
ghost use Rattle.flow_audit.specs.Parts.{HasTaken, IsFlowOf, StopsRun};

use crate::reading::{RecordFile, gate};
use crate::verdict::Stop;
use flow_core::{Flow, FlowError};
use std::alloc::Global;

/// The run of file 0, none where it has no record.
#[derive(Drop)]
pub(crate) struct JournalRun {
    pub(crate) file: RecordFile,
    pub(crate) flow: Option<Flow>,
}

/// The flow of the records, none where there are none.
pub(crate) fn follow(alloc: Global, file: &RecordFile) -> Result<Option<Flow>, Stop>
    requires placed { ArePlaced file.now.entries }
    requires many { length file.now.entries ≡ length file.now.records.items }
    requires ranges { AllByRecursion InRange file.now.records.items }
    requires few { length file.now.records.items < 100_000_000 }
    ensures ok { IfOk result (IsFlowOf file.now.records.items) }
    ensures stops { IfErr result (StopsRun (bytes_of file.now.entries) file.now.records.items) }
{
    let Some(first) = file.records.first() else {
        return Ok(None);
    };
    match Flow::begun(alloc, first) {
        Ok(Some(flow)) => {
            flow.law();
            match follow_others(file, flow) {
                Ok(flow) => Ok(Some(flow)),
                Err(stop) => Err(stop),
            }
        }
        Ok(None) => Err(Stop::No {
            file: 0,
            place: gate(&file.entries, 0),
        }),
        Err(_) => Err(Stop::Memory),
    }
}

/// Takes the records behind the first one. A record in range passes no limit but that on tasks.
fn follow_others(file: &RecordFile, mut flow: Flow) -> Result<Flow, Stop>
    requires placed { ArePlaced file.now.entries }
    requires many { length file.now.entries ≡ length file.now.records.items }
    requires ranges { AllByRecursion InRange file.now.records.items }
    requires few { length file.now.records.items < 100_000_000 }
    requires some { 1 ≤ length file.now.records.items }
    requires begun { HasTaken (take 1 file.now.records.items) flow }
    ensures ok { IfOk result (HasTaken file.now.records.items) }
    ensures stops { IfErr result (StopsRun (bytes_of file.now.entries) file.now.records.items) }
{
    for n in 1..file.records.len() {
        match flow.take(&file.records[n]) {
            Ok(()) => flow.law(),
            Err(FlowError::NotEnabled) => {
                return Err(Stop::No {
                    file: 0,
                    place: gate(&file.entries, n),
                });
            }
            Err(FlowError::Limit { .. }) => {
                return Err(Stop::Tasks {
                    place: gate(&file.entries, n),
                });
            }
            Err(FlowError::Memory) => return Err(Stop::Memory),
        }
    }
    Ok(flow)
}
