//! The parts of a session of the engine over a site, beside any filters: the opening of its files, what it does with the engine and the
//! filters that stand here, what it asks of the clock, its turns, and how it ends.
#![tactic(auto)]

pub mod clock;
pub mod close;
pub mod due;
pub mod engine_side;
pub mod error;
pub mod filters;
pub mod moves;
pub mod opening;
pub mod turns;

pub use clock::reach;
pub use close::Close;
pub use error::WorldError;
pub use filters::Filters;
pub use flow_world_steps::Setup;
pub use opening::{open_files, run_opened};
pub use turns::Session;
