//! Where a text is not JSON, and what was expected there instead; and where the parts of a JSON text stand. What is found is tested:
//! contracts speak of the tests alone.
#![tactic(auto)]

mod begun;
mod faults;
mod first_fault;
mod kinds;
mod places;
pub mod scan;
mod standing;
mod token_tests;
mod tokens;

pub use begun::{Told, told_fault};
pub use faults::Fault;
pub use kinds::{Kind, plain_words};
pub use places::{Place, place_behind};
pub use standing::{path_of, stands, word_stands};
pub use token_tests::{broken_number, is_twice};
pub use tokens::{Twice, name_twice};
