//! What holds of each run of a fleet: the records that it gained and their lines, what became of parcels and commands, and how each fleet
//! closes. A law is the contract of a function that does nothing.
#![tactic(auto)]

ghost use Rattle.flow_fleet_runs.specs.Came.{EachFleetBegins, EachFleetCame, EachFleetLooked};
ghost use Rattle.flow_fleet_runs.specs.Complete.{EachEndedRunIsActedOn, EachFleetComplete, EachFleetSendIsActedOn, EachFleetUnderWay, NoFleetExpiry};
ghost use Rattle.flow_fleet_runs.specs.Counted.{EachFleetCloseCounts, EachFleetCounts, EachFleetRefusalCounts};
ghost use Rattle.flow_fleet_runs.specs.Ends.{EachFleetClosesByKind, EachFleetClosesExactly};
ghost use Rattle.flow_fleet_runs.specs.Handled.{EachFleetHandles};
ghost use Rattle.flow_fleet_runs.specs.Lines.{EachFleetSpeaksAt, EachFleetTells};
ghost use Rattle.flow_fleet_runs.specs.Moments.{EachFleetActed, EachFleetRecordIsInTime, EachOfferedIsInTime};
ghost use Rattle.flow_fleet_runs.specs.Pairs.{FleetRunsAreRuns, OneRunIsAFleet, OneRunMoreIsAFleet, PairsHaveTheirPlaces, PlacesHaveTheirPairs};
ghost use Rattle.flow_fleet_runs.specs.Parcels.{EachFleetCloseHandles, EachFleetRefusalHandles};
ghost use Rattle.flow_fleet_runs.specs.Puts.{EachFleetPutsFew};
ghost use Rattle.flow_fleet_runs.specs.Reached.{EachFleetCloseReaches, EachFleetRefusalReaches};
ghost use Rattle.flow_fleet_runs.specs.Said.{EachFleetCloseSays, EachFleetRefusalSays};
ghost use Rattle.flow_fleet_runs.specs.Standing.{EachFleetStands};
ghost use Rattle.flow_fleet_runs.specs.Unsure.{EachFleetOffered, EachFleetOfferedAct, EachOfferedBegin};

use flow_fleet_laws::events_law;

/// The lines that a fleet says are those of the records that it appended, of all runs together, in the order in which they were
/// appended, each behind its run's number and a space; only the last record may lack its line. So the lines with one run's number
/// are those of its own records. The function does nothing; its contract is the law.
pub fn fleet_lines_law()
    ensures tells { EachFleetTells }
    ensures each { EachFleetSpeaksAt }
{}

/// Each record that a fleet appended to the journal of a run came by one call: a Begin while the journal was empty, with the
/// run's number and texts; a Walk, a Send, an Ask or an Upgrade as the run's enabled move; a Reply by a parcel in hand; an Expire
/// at or past the issue's deadline. Moves and Expires come where the take of the turn found no parcel, an Expire where besides no
/// run has a move. The function does nothing; its contract is the law.
pub fn fleet_came_law()
    ensures came { EachFleetCame }
    ensures looked { EachFleetLooked }
    ensures begins { EachFleetBegins }
{}

/// At the end of a fleet that opened its files, however it ends, each image that a crash may leave of a run's journal stands for the records
/// of its engine, or for these and one that may stand behind them where the disk failed; and that of each filter's file for its acts. The
/// function does nothing; its contract is the law.
pub fn fleet_files_law()
    ensures stands { EachFleetStands }
{}

/// What becomes of the parcels that a fleet takes. From a rack where a fleet may begin, which tells the parcels taken: on
/// return each command for an agent that the fleet took has its act in each image of its agent's file, and each final reply, whose issue
/// waited for it when it was taken, its Reply in each image of its run's journal; where the fleet refused, all but the last
/// parcel. Each act and each Reply that was appended is of a parcel that it took. The function does nothing; its contract is
/// the law.
pub fn fleet_parcels_law()
    ensures handles { EachFleetHandles }
    ensures closes { EachFleetCloseHandles }
    ensures refuses { EachFleetRefusalHandles }
{}

/// What a fleet puts, however it ends, from a rack where it may begin, which tells the parcels put and taken: commands of its
/// runs, whose Sends stood in their journals, at most nine of an issue; and replies, at most as many as the commands that it
/// took. The function does nothing; its contract is the law.
pub fn fleet_puts_law()
    ensures puts { EachFleetPutsFew }
{
    events_law();
}

/// A fleet that closes has ended exactly where every run has; it is paused exactly where no record more may be appended and a
/// run has not ended; it waits exactly where the clock stands before the moment that it was asked for; it is flooded exactly
/// where 1,000,000 parcels changed no journal; and it asks an operator exactly where a record more may be appended, not too
/// many parcels changed no journal, a run has not ended, none has a move and nothing is due. Where it waits since its opening,
/// that comes first. The function does nothing; its contract is the law.
pub fn fleet_exact_ends_law()
    ensures exact { EachFleetClosesExactly }
    ensures kinds { EachFleetClosesByKind }
{}

/// While no parcel is lost, doubled or held back, and pending parcels are told, for each issue of each run that was put and
/// waits its command or a reply to it is under way, and none expires. Each record that ends an issue is then its Reply; and where a run that began there has
/// ended, each of its Sends has its act and its Reply. The function does nothing; its contract is the law.
pub fn fleet_complete_law()
    ensures under_way { EachFleetUnderWay }
    ensures no_expiry { NoFleetExpiry }
    ensures complete { EachFleetComplete }
    ensures ended { EachEndedRunIsActedOn }
    ensures acted_on { EachFleetSendIsActedOn }
{}

/// A record that may stand behind those of a run, since the disk failed while it was appended, was offered by the last call, at the
/// clock's moment, and came as one that was appended comes: a Begin has the number and the texts of its run. An act that may stand
/// behind those of a filter is on the command that was in hand in the last call. The function does nothing; its contract is the law.
pub fn fleet_unsure_law()
    ensures offered { EachFleetOffered }
    ensures begins { EachOfferedBegin }
    ensures acts { EachFleetOfferedAct }
{}

/// In the journal of a run no record is of an earlier moment than one before it, nor is one that may stand behind them. Each act
/// that a fleet appended came by one call, from the command in hand, at the clock's moment, or at that of the last act in its
/// filter's file, if that is later. The function does nothing; its contract is the law.
pub fn fleet_moments_law()
    ensures in_time { EachFleetRecordIsInTime }
    ensures offered { EachOfferedIsInTime }
    ensures acted { EachFleetActed }
{}

/// Of the parcels that a fleet handed on, each brought one act, or one Reply in the journal of a run, or changed no journal. It is
/// flooded exactly where 1,000,000 of those that it took changed none, and never more do. The function does nothing; its contract is
/// the law.
pub fn fleet_floods_law()
    ensures counts { EachFleetCounts }
    ensures closes { EachFleetCloseCounts }
    ensures refuses { EachFleetRefusalCounts }
{}

/// A fleet that closes said the lines of all records that it appended, in order, and nothing else. One that refuses lacks at most
/// that of the last record: it does where that could not be said, it may where memory was wanted, and else it lacks none. One that
/// could not open its files said nothing. The function does nothing; its contract is the law.
pub fn fleet_said_law()
    ensures closes { EachFleetCloseSays }
    ensures refuses { EachFleetRefusalSays }
{}

/// However a fleet ends, the greatest moment that its clock was asked for is no later than it was at the start, than the greatest
/// moment of a last record there, or than what was due for one of its runs meanwhile. While files are opened the clock is not asked.
/// The function does nothing; its contract is the law.
pub fn fleet_reach_law()
    ensures closes { EachFleetCloseReaches }
    ensures refuses { EachFleetRefusalReaches }
{}

/// One pair of a number of 64 bits and what the run is given makes a fleet's list, and so do those of one and a pair more, where
/// there are fewer than 16 and none has its number. Each run has the place of its pair. The function does nothing; its contract is
/// the law.
pub fn fleet_pairs_law()
    ensures one { OneRunIsAFleet }
    ensures more { OneRunMoreIsAFleet }
    ensures places { PairsHaveTheirPlaces }
    ensures pairs { PlacesHaveTheirPairs }
    ensures runs { FleetRunsAreRuns }
{}
