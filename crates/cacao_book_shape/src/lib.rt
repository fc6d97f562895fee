//! The rules of shape of CACAO playbooks: a tree breaks none of them, or the first that it breaks is named.
#![tactic(auto)]

mod arguments;
mod book_rules;
mod contents;
mod dictionaries;
mod grammars;
mod lists;
mod members;
mod refusals;
mod shape;
mod step_rules;

pub use contents::decoded;
pub use lists::{items_at, members_at, text_or_empty};
pub use members::{flag_at, has_type, is_type, some_text, text_at};
pub use refusals::BookError;
pub use shape::test_shape;
