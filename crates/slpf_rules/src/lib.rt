//! The rule table of a simulated packet filter (OpenC2 SLPF 1.0).
#![tactic(auto)]

mod adding;
mod answering;
mod any_nets;
mod blocks;
mod briefs;
mod deciding;
mod filing;
mod flows4;
mod index;
mod laws;
mod lists;
mod numbers;
mod quick;
mod quick6;
mod rules;
mod sides;
mod slots;
mod slots6;
mod soles;
mod table;
mod verdicts;
mod widths;

pub use answering::refused;
pub use any_nets::AnyNet;
pub use laws::replies_are_final;
pub use numbers::Numbers;
pub use rules::{Rule, Rules};
pub use table::Table;
pub use verdicts::Verdict;
