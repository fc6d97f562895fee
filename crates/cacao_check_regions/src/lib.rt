//! The regions of CACAO 2.0 playbooks, what their steps see of a name, where their paths can end, and which playbooks lead to which.
#![tactic(auto)]

mod charts;
mod declarers;
mod endings;
mod flaws;
mod laws;
mod leading;
mod looking;
mod memory;
mod regions;
mod same_vars;
mod searches;
mod seeing;
mod seen;
mod sights;
mod surveys;
mod tables;

pub use charts::Chart;
pub use declarers::Declarers;
pub use flaws::{Flaw, sees_flaw};
pub use laws::scopes_agree;
pub use leading::leads_of;
pub use looking::{seen_at_key, stands_in, step_with};
pub use memory::Memory;
pub use regions::{Regions, regions_of};
pub use seen::{Seen, Sight};
pub use surveys::{Survey, survey_all};
