//! What happens in a fleet of runs over the same filters, call by call: what a run does is a step of a session of its own. How a fleet
//! closes, why it refuses, and the laws of its calls in a row.
#![tactic(auto)]

pub mod close;
pub mod error;
mod laws;

pub use close::FleetClose;
pub use error::FleetError;
pub use laws::{fleet_closes_law, fleet_events_law, fleet_spending_law};
