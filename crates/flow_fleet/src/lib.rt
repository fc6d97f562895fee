//! A fleet: runs side by side over the same filters, each with a journal of its own on a rack of files.
#![tactic(auto)]

mod due;
mod fleet_state;
mod opening;
mod parcels;
mod records;
mod run_side;
mod runs;
mod searches;
mod seen;
mod turns;
mod waits;
mod whole;

pub use flow_fleet_steps::{FleetClose, FleetError};
pub use runs::FleetRuns;
pub use whole::fleet;
