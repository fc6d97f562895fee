// The flow of a run behind its Begin.
ghost use Rattle.std.specs.Prelude.{ℕ, IfOk, List, MatchOption};
ghost use Rattle.run_records.specs.Ranges.{InRange};
ghost use Rattle.flow_engine_reports.specs.Beginnings.{HasBegun, IsNotBegun};
ghost use Rattle.cacao_view_log.specs.Telling.{IsEntryOf};

use flow_core::Flow;
use run_records::Record;
use std::alloc::{AllocError, Global};

/// The run that the record of an entry begins, behind its Begin; None where it is no Begin of what is accepted.
pub fn begun(alloc: Global, item: &Record) -> Result<Option<Flow>, AllocError>
    requires in_range { InRange item.now }
    ensures { (entry : List ℕ) → IsEntryOf item.now entry
        → IfOk result (λ o. MatchOption o (IsNotBegun entry) (HasBegun entry)) }
{
    Flow::begun(alloc, item)
}
