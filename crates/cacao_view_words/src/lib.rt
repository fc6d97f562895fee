//! The words of the program that only looks: what they ask for, what is said of words and rules, and what a word has to say of what it read:
//! lines, and how the call ends.
#![tactic(auto)]

mod book_words;
mod books;
mod lines;
mod log;
mod options;
mod report;
mod rule;
mod rule_texts;
mod topic;
mod topic_texts;
mod wanted;
mod words;

pub use book_words::BookWords;
pub use lines::Lines;
pub use report::Report;
pub use rule::Rule;
pub use topic::{Topic, all_words, version_lines};
pub use wanted::Wanted;
pub use words::{Request, read_words};
