//! Runs that go on side by side, each with a journal of its own, over the same filters and one link: how each sees the rack of
//! files, and that all agrees for each of them, whatever the others do. The definitions stand in `specs/`; here are the laws. A
//! law is the contract of a function that does nothing.
#![tactic(auto)]

ghost use Rattle.flow_fleet_laws.specs.Events.{EventsKeepBothForms, EventsKeepBystanders, EventsKeepEach, EventsKeepFleets};
ghost use Rattle.flow_fleet_laws.specs.Events.{EventsKeepOwn, EventsPutOwn};
ghost use Rattle.flow_fleet_laws.specs.Lines.{OtherLines};
ghost use Rattle.flow_fleet_laws.specs.Racks.{BareStartsAreSessions, CrashesAreRackRestarts, FleetsBeginOnBlankRacks};
ghost use Rattle.flow_fleet_laws.specs.Racks.{FleetsFollow, KeptJournalsStayOwn, RunsBeginAnew, RunsBeginOnBlankRacks, RunsGoOn};
ghost use Rattle.flow_fleet_laws.specs.Racks.{SessionsAreBare, StartsInAnotherForm, StartsUnderAnother};
ghost use Rattle.flow_fleet_laws.specs.Shrinking.{FileShrinks, FiltersShrink, KeptShrinks, ShrinksOn};
ghost use Rattle.flow_fleet_laws.specs.Views.{ViewsAreWhole, ViewsFromTheFirst, ViewsHideOthers, ViewsShareFilters};

/// Each file of a rack is one file of each run's view. All runs see the same filters, none sees the journal of another among
/// files 0 to 16, and the run at place 0 sees the rack as it is.
pub fn views_law()
    ensures whole { ViewsAreWhole }
    ensures filters { ViewsShareFilters }
    ensures others { ViewsHideOthers }
    ensures first { ViewsFromTheFirst }
{}

/// Where one file has fewer images, or those of the first filters have, or nothing changes, each file has at most the images that
/// it had; and so it has where one such call follows another. So the opening of a journal, that of all filters and both together
/// do.
pub fn shrinking_law()
    ensures file { FileShrinks }
    ensures filters { FiltersShrink }
    ensures kept { KeptShrinks }
    ensures in_a_row { ShrinksOn }
{}

/// Which lines are no record's, of any run, by their first characters.
pub fn lines_law()
    ensures other_lines { OtherLines }
{}

/// Whatever runs and filters do, call by call, all agrees at each beat for each run as it sees the rack, and so for those of a
/// fleet; for that at place 0 with lines of either form; and for each run that takes no part, whose number and journal are its
/// own. A journal that is its own run's stays so, and each command that is put carries the number of one of the runs.
pub fn events_law()
    ensures each { EventsKeepEach }
    ensures fleets { EventsKeepFleets }
    ensures both_forms { EventsKeepBothForms }
    ensures bystanders { EventsKeepBystanders }
    ensures own { EventsKeepOwn }
    ensures numbers { EventsPutOwn }
{}

/// A crash of a rack in memory leaves one where runs may go on. Where a run ended or was cut off, at any beat, it may go on,
/// under its number or, where its journal has begun, under any; where its journal was taken away, or there was none, a run may
/// begin anew. So may a fleet on a blank rack, each run beside it, and a fleet after another. A session over one journal is such
/// a run, whose lines have no number.
pub fn racks_law()
    ensures crash { CrashesAreRackRestarts }
    ensures going_on { RunsGoOn }
    ensures beginning_anew { RunsBeginAnew }
    ensures another_form { StartsInAnotherForm }
    ensures another_number { StartsUnderAnother }
    ensures own { KeptJournalsStayOwn }
    ensures sessions { SessionsAreBare }
    ensures session_starts { BareStartsAreSessions }
    ensures blank { FleetsBeginOnBlankRacks }
    ensures blank_run { RunsBeginOnBlankRacks }
    ensures fleets { FleetsFollow }
{}
