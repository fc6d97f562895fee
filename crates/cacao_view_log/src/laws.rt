// Laws of what is told of records.
ghost use Rattle.cacao_view_log.specs.Laws.{LinesAreSaid, ObjectsHaveTrees, ObjectsReadBack};

/// The lines are those that the sessions of the run said, and an object reads back to its record.
pub fn log_law()
    ensures lines { LinesAreSaid }
    ensures trees { ObjectsHaveTrees }
    ensures back { ObjectsReadBack }
{}
