//! Texts that take memory of their own only where they are long.
#![tactic(auto)]

mod texts;

pub use texts::Text;
