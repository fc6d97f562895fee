// Laws over the definitions that the contracts of runs speak by. Each function does nothing; its contract is the law.
ghost use Rattle.flow_core_rules.specs.Laws.{ValuesAreShown, EditsAreShown, RecordsAreShown, FirstRecordIsShown, ConditionsAreSpelled};
ghost use Rattle.flow_core_rules.specs.Laws.{NextIsOne, EnabledHasNext, RunLeadsToOne, RunsAreOne, OneRecordIsBegin, RunsGoOn};
ghost use Rattle.flow_core_rules.specs.Laws.{EndedIsOver, SaneIsNotStuck, RunsAreSane, WaitingCanEnd, EndedIsAllOver, EarlierRunsAreRuns};
ghost use Rattle.flow_core_rules.specs.Laws.{IssuesAreNew, IssuesHaveRecords, RecordsKeepIssues, MovesAreEnabled, NoMoveIsNoRecord};
ghost use Rattle.flow_core_rules.specs.Laws.{MovesAreInRange, EnabledAreInRange, BeginsAreInRange, RecordsHaveLines, LinesFixRecords, OthersAreNoRecords};
ghost use Rattle.flow_core_rules.specs.Waiting.{SaneAlwaysWaits, NoRecordIsNoMove};

/// What is shown of a state is all that its next records rest on: values, each edit and each record change what is shown
/// by what was shown before.
pub fn shown_alone()
    ensures values { ValuesAreShown }
    ensures edits { EditsAreShown }
    ensures records { RecordsAreShown }
    ensures first { FirstRecordIsShown }
{}

/// A condition is taken of a text exactly where the text spells it by the grammar.
pub fn conditions_are_spelled()
    ensures { ConditionsAreSpelled }
{}

/// A record leads to one state at most, and to one exactly where it is enabled.
pub fn one_next_state()
    ensures one { NextIsOne }
    ensures enabled { EnabledHasNext }
    ensures run { RunLeadsToOne }
    ensures runs { RunsAreOne }
{}

/// A run of one record is its Begin; a longer one is a run and a next record.
pub fn runs_go_on()
    ensures begin { OneRecordIsBegin }
    ensures more { RunsGoOn }
{}

/// A run that is ended has no enabled record.
pub fn ended_is_over()
    ensures { EndedIsOver }
{}

/// A state whose tasks and issues are as those of a run are is not stuck.
pub fn sane_is_not_stuck()
    ensures { SaneIsNotStuck }
{}

/// While it goes on, and no task walks, sends or asks, nor asks once it is upgraded, it waits for a moment or for an operator.
pub fn sane_always_waits()
    ensures { SaneAlwaysWaits }
{}

/// Each state of a run of accepted playbooks is sane.
pub fn runs_are_sane()
    ensures { RunsAreSane }
{}

/// An issue that waits can be answered, be told and expire.
pub fn waiting_can_end()
    ensures { WaitingCanEnd }
{}

/// Once the first task has ended, each task has, and no issue waits.
pub fn ended_is_all_over()
    ensures { EndedIsAllOver }
{}

/// Each run by the rules before there were operators is a run.
pub fn earlier_runs_are_runs()
    ensures { EarlierRunsAreRuns }
{}

/// A Send and an Ask have a new number, and each issue has its record; one that waits has none that ends it.
pub fn issues_have_records()
    ensures new { IssuesAreNew }
    ensures records { IssuesHaveRecords }
{}

/// A record ends one issue at most, leaves all others as they were, and one that it sends or asks waits.
pub fn records_keep_issues()
    ensures { RecordsKeepIssues }
{}

/// A move that is enabled has its record, which may come next; there is no move exactly where no task walks, sends or asks.
pub fn moves_have_records()
    ensures some { MovesAreEnabled }
    ensures none { NoMoveIsNoRecord }
    ensures only { NoRecordIsNoMove }
{}

/// The record of a move that is enabled has its fields in range, and so has each record that may come next, and the Begin.
pub fn moves_are_in_range()
    ensures moves { MovesAreInRange }
    ensures records { EnabledAreInRange }
    ensures begin { BeginsAreInRange }
{}

/// Lines of records are told from all other lines by their first three words, and tell the record's number and moment.
pub fn record_lines_differ()
    ensures records { RecordsHaveLines }
    ensures numbers { LinesFixRecords }
    ensures others { OthersAreNoRecords }
{}
