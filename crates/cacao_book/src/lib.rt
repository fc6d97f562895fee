//! Typed CACAO playbooks: a tree that breaks no rule of shape becomes a playbook.
#![tactic(auto)]

mod arguments;
mod books;
mod cases;
mod commands;
mod contents;
mod dictionaries;
mod finding;
mod reading;
mod step_kinds;
mod step_lists;
mod step_reading;
mod steps;
mod text_reading;
mod texts;

pub use books::Book;
pub use cacao_book_shape::BookError;
pub use cases::{Case, Cases};
pub use commands::{StepCommand, StepCommands};
pub use finding::find_place;
pub use reading::read_book;
pub use step_kinds::StepKind;
pub use step_lists::Steps;
pub use steps::Step;
pub use texts::Texts;
