//! Identifiers and stamps of CACAO playbooks.
#![tactic(auto)]

mod ids;
mod stamps;
mod uuids;

pub use ids::Id;
pub use stamps::Stamp;
pub use uuids::is_uuid;
