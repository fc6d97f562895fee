//! What the commands of playbooks say, read once: contents for filters and texts for operators, with their references found.
#![tactic(auto)]

mod contents;
mod phrases;
mod wordings;

pub use contents::{Content, Contents, Entries, Entry};
pub use phrases::{Phrase, Reference};
pub use wordings::{BookWords, StepWords, is_manual, read_words};
