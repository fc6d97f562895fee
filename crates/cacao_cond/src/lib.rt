//! Conditions of CACAO playbooks: read, printed and decided.
#![tactic(auto)]

mod deciding;
mod errors;
mod laws;
mod naming;
mod printing;
mod reading;
mod tokens;
mod trees;
mod truths;

pub use deciding::{Atom, Worths, value_of};
pub use errors::CondError;
pub use laws::{conditions_are_lists, spells_at_most_one};
pub use naming::names;
pub use printing::{CondText, print_cond};
pub use reading::read_cond;
pub use trees::{AllOf, Cond, Constant, Constants, Op, Prime};
pub use truths::truth;
