//! What a fleet adds up to, for all of its runs together: the records that it appends, the device calls and bytes that it takes, what it
//! puts, and what expires. A law is the contract of a function that does nothing.
#![tactic(auto)]

ghost use Rattle.flow_fleet_sums.specs.Asks.{EachFleetAsks};
ghost use Rattle.flow_fleet_sums.specs.Ends.{EachFleetEnded, EachFleetFloods, EachFleetIgnores, EachFleetWaits};
ghost use Rattle.flow_fleet_sums.specs.Sums.{EachFleetAddsUp};

/// However a fleet ends, from the opening of its files on: of all runs together at most as many records are appended as may be, each at a
/// moment of the fleet; device calls and bytes are few for each file, record, act and line; each Expire is of an issue that was put, but for
/// as many as the count of mishaps rose by; and no issue is put more than nine times. The function does nothing; its contract is the law.
pub fn fleet_sums_law()
    ensures sums { EachFleetAddsUp }
{}

/// The clock is asked for the greatest moment of a last record at the opening, and later for what comes next of all runs; for nothing beyond
/// these. The function does nothing; its contract is the law.
pub fn fleet_clock_law()
    ensures asks { EachFleetAsks }
{}

/// A fleet that refused or waits came to that by one call, which tells why; where it waits, the clock was asked for that moment last, and
/// stands before it; never more parcels changed no journal than may be, and it closes as flooded exactly where so many did. The function does
/// nothing; its contract is the law.
pub fn fleet_ends_law()
    ensures ended { EachFleetEnded }
    ensures waits { EachFleetWaits }
    ensures ignored { EachFleetIgnores }
    ensures floods { EachFleetFloods }
{}
