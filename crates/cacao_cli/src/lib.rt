//! The commands of the program, from the words of the command line to the lines said and the exit status.
#![tactic(auto)]

mod program;
mod rehearse;
mod run;

pub use program::top;
