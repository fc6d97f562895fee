//! The command `fleet`: runs side by side over the same filters.
#![tactic(auto)]

mod ending;
mod fleet_end;
mod fleeting;
mod judging;

pub use ending::finish_fleet;
pub use fleet_end::FleetEnd;
pub use fleeting::fleet;
pub use flow_fleet_returns::{
    complete_laws, fleet_causes_law, fleet_costs_law, fleet_undamaged_law,
};
