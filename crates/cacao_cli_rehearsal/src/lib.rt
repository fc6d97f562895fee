//! Rehearsals: a playbook with a given number of positions is made, run on a site in memory, and counted.
#![tactic(auto)]

mod book;
mod building;
mod counting;
mod error;
mod names;
mod rehearsing;
mod setting;
mod site;
mod steps;
mod summary;

pub use book::rehearsal_text;
pub use error::RehearsalError;
pub use rehearsing::rehearse;
pub use setting::new_site;
pub use site::RehearsalSite;
pub use summary::Summary;
