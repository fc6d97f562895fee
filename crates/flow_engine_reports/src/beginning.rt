// The first entry of a run.
ghost use Rattle.std.specs.Prelude.{IfOk, MatchOption};
ghost use Rattle.flow_engine_reports.specs.Beginnings.{HasBegun, IsNotBegun};

use flow_core::Flow;
use run_records::read_record;
use std::alloc::{AllocError, Global};

/// The run that an entry begins, behind its Begin; None where the entry is no Begin of what is accepted.
pub(crate) fn begun(alloc: Global, entry: &[u8]) -> Result<Option<Flow>, AllocError>
    ensures { IfOk result (λ o. MatchOption o (IsNotBegun entry.now) (HasBegun entry.now)) }
{
    let Some(item) = read_record(alloc, entry)? else {
        return Ok(None);
    };
    Flow::begun(alloc, &item)
}
