//! A run as it stands: what its names are worth, which conditions hold, and its commands with values filled in.
#![tactic(auto)]

mod addressing;
mod filling;
mod heads;
mod looking;
mod places;
mod reaching;
mod run;
mod sizing;
mod truths;

pub use flow_core_tables::{
    Planned, Present, Setup, SetupError, Tables, Wait, accepted_again, accepted_is_runnable,
    setup_law,
};
pub use places::{Place, next_place, place_in};
pub use reaching::MOST_COMMAND;
pub use run::{Run, Sight, Stand};
