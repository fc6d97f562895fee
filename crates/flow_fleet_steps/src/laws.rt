// Laws of all that happens in a fleet, and of its ends.
ghost use Rattle.flow_fleet_steps.specs.Spent.{EachFleetInTime, EachFleetSpends};
ghost use Rattle.flow_fleet_steps.specs.Laws.{ClosesAreNoRefusals, ClosesAreOne, FleetsAreEvents, FleetsKeepEach, OpeningsShrink};

use flow_world_steps::accepted_is_runnable;

/// How a fleet stands in the end tells how it closes: no two closes hold of one world, and none where it refused. The function does
/// nothing; its contract is the law.
pub fn fleet_closes_law()
    ensures one { ClosesAreOne }
    ensures no_refusal { ClosesAreNoRefusals }
{}

/// An opening of a fleet's files leaves of each only images that it had. All that a fleet does, however it ends, is calls in a row of its
/// runs, each of whose lines has its number before it; so each run keeps agreement. The function does nothing; its contract is the law.
pub fn fleet_events_law()
    ensures openings { OpeningsShrink }
    ensures events { FleetsAreEvents }
    ensures each { FleetsKeepEach }
{}

/// While a fleet goes on a record of each run may come at the present moment; and each of its steps uses something up, so each fleet ends. The
/// function does nothing; its contract is the law.
pub fn fleet_spending_law()
    ensures in_time { EachFleetInTime }
    ensures spends { EachFleetSpends }
{
    accepted_is_runnable();
}
