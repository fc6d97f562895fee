// Laws of the layouts, for all records and acts.
ghost use Rattle.run_records.specs.Laws.{OneRecordALayout, OneActALayout, RecordsAreShort, ActsAreShort, RecordsReadBack, ActsReadBack};

/// Bytes are the layout of at most one record, and of at most one act.
pub fn one_value_a_layout()
    ensures records { OneRecordALayout }
    ensures acts { OneActALayout }
{}

/// A record or an act in range fits an entry of a journal, and the entries that are written of a list of them are
/// that list.
pub fn entries_law()
    ensures records_are_short { RecordsAreShort }
    ensures acts_are_short { ActsAreShort }
    ensures records_read_back { RecordsReadBack }
    ensures acts_read_back { ActsReadBack }
{}
