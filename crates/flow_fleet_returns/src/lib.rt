//! What a whole call of a fleet did, told of the rack: the runs that its journals hold, few device calls and bytes, and what its end tells.
//! A law is the contract of a function that does nothing.
#![tactic(auto)]

ghost use Rattle.flow_fleet_returns.specs.Causes.{EachFleetCloseTells, EachFleetRefusalTells};
ghost use Rattle.flow_fleet_returns.specs.Costs.{EachFleetCloseUsesFew, EachFleetRefusalUsesFew};
ghost use Rattle.flow_fleet_returns.specs.Prefixes.{EachFleetCloseGoesOn, EachFleetRefusalGoesOn, EachRefusedFleetOpeningAddsNothing};
ghost use Rattle.flow_fleet_returns.specs.Undamaged.{NoFleetFindsDamage};

pub use flow_fleet::{FleetRuns, fleet};
pub use flow_fleet_steps::{FleetClose, FleetError};
pub use flow_world_laws::complete_laws;

/// However a fleet ends, from a start where all agrees, as each of its runs sees the rack: some image of its journal at the start
/// stands for a run, and on return the journal reads as a run that has it as its front. The records that were added, of all runs
/// together, are at most as many as the fleet may append, each at a moment of the call; none was added until all files were
/// open. Where a journal was opened and no call of the disk failed, each image that a crash may leave of it on return stands for
/// the run of then. The function does nothing; its contract is the law.
pub fn fleet_prefix_law()
    ensures closes { EachFleetCloseGoesOn }
    ensures refuses { EachFleetRefusalGoesOn }
    ensures refuses_opening { EachRefusedFleetOpeningAddsNothing }
{}

/// However a fleet ends, from the start of the call on: calls of the disk are at most five, five for each file that it opened, one
/// for each 4,096 bytes of these files and four for each record and act that it appended; device calls, where the lines said are
/// told, one more for each line that it said; and bytes handed to the disk at most nine for each file and, for each entry that it
/// appended and for one whose append failed, six more than the entry has. The function does nothing; its contract is the law.
pub fn fleet_costs_law()
    ensures closes { EachFleetCloseUsesFew }
    ensures refuses { EachFleetRefusalUsesFew }
{}

/// A fleet that refuses because the disk failed counted its faults, and one that refuses because a line could not be said
/// counted that line; every other end counted neither. A fleet that waits asked its clock for that moment last, and the clock stands before it; where it closes
/// otherwise, the clock came to what it was asked for last. The function does nothing; its contract is the law.
pub fn fleet_causes_law()
    ensures refusals { EachFleetRefusalTells }
    ensures closes { EachFleetCloseTells }
{}

/// A fleet whose runs come of accepted texts, and that begins where all that a crash may leave agrees for each of them, tells no
/// file as damaged. The function does nothing of its own; its contract is the law.
pub fn fleet_undamaged_law()
    ensures undamaged { NoFleetFindsDamage }
{
    complete_laws();
}
