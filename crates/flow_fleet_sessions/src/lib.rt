//! What a session over one journal is to the runs beside it on a rack of files: calls in a row of one run, whose lines have no
//! number before them. So the laws of runs side by side hold of it. A law is the contract of a function that does nothing.
#![tactic(auto)]

ghost use Rattle.flow_fleet_sessions.specs.Sessions.{FiltersOpen, OpeningsShrink, RefusedOpeningsShrink};
ghost use Rattle.flow_fleet_sessions.specs.Sessions.{SessionsAreEvents, SessionsKeepBystanders, SessionsKeepNumbered};

pub use flow_world::WorldError;

/// Where a session opens its files, all of them or some before it refuses, each file has at most the images that it had; and all
/// that it does, however it ends, is calls in a row of its run. So a fleet may go on with that run, where it might before, and
/// each run beside it is left as it was.
pub fn sessions_law()
    ensures filters { FiltersOpen }
    ensures openings { OpeningsShrink }
    ensures refused { RefusedOpeningsShrink }
    ensures events { SessionsAreEvents }
    ensures numbered { SessionsKeepNumbered }
    ensures bystanders { SessionsKeepBystanders }
{}
