// The report of a run.
ghost use Rattle.std.specs.Prelude.{ℕ, IfOk, IsErrOf};
ghost use Rattle.flow_engine_reports.specs.RunFiles.{BreaksOff, Overgrows};
ghost use Rattle.flow_engine_reports.specs.RunLines.{Reports};

use crate::beginning::begun;
use crate::error::ReportError;
use crate::replaying::replay;
use cacao_site::Bytes;
use flow_engine_history::FIRST_GATE;
use run_journal::Journal;
use std::alloc::Global;

/// What `show` says of the engine's journal: `no run` where it has no record, else the run's number, the number of its records, the
/// last moment, each task, each issue, each variable of the first playbook, and how the run stands, a line each.
pub fn run_report(alloc: Global, journal: &Journal) -> Result<Bytes, ReportError>
    ensures ok { IfOk result (Reports journal.now.items) }
    ensures damaged { (place : ℕ) → IsErrOf result (ReportError.Damaged place) → BreaksOff journal.now.items place }
    ensures tasks { IsErrOf result ReportError.TooManyTasks → Overgrows journal.now.items }
{
    if journal.count() == 0 {
        return match Bytes::from_slice(alloc, b"no run\n") {
            Ok(text) => Ok(text),
            Err(_) => Err(ReportError::Memory),
        };
    }
    let mut flow = match begun(alloc, journal.entry(0)) {
        Ok(Some(flow)) => flow,
        Ok(None) => return Err(ReportError::Damaged { place: FIRST_GATE }),
        Err(_) => return Err(ReportError::Memory),
    };
    match replay(alloc, journal, &mut flow) {
        Ok(()) => {}
        Err(error) => return Err(error),
    }
    flow.law();
    match flow.report() {
        Ok(text) => Ok(text),
        Err(_) => Err(ReportError::Memory),
    }
}
