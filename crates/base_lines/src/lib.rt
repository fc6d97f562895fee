//! Lines of words and numbers, added to the end of what is written.
#![tactic(auto)]

mod adding;

pub use adding::{add, add_decimal, add_number, add_word};
