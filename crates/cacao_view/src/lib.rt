//! The program that only looks, as one call: from the words to the lines said and the exit status. It writes no file and sends nothing.
#![tactic(auto)]

mod end;
mod explain_word;
mod graph_word;
mod log_word;
mod preflight_word;
mod program;
mod run_word;
mod say;

pub use program::view;
