//! The colons of a JSON text and the members of its value, which tell a repeated name.
#![tactic(auto)]

mod count;

pub use count::{count_colons, left_after_members};
