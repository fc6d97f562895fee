//! The words of the command line: what they ask the program to do.
#![tactic(auto)]

mod audit_words;
mod book_names;
mod filter_file;
mod fleet_reading;
mod fleet_words;
mod numbers;
mod peer_words;
mod reading;
mod run_book;
mod run_reading;
mod run_words;
mod words;

pub use book_names::BookNames;
pub use filter_file::FilterFile;
pub use fleet_reading::read_fleet_words;
pub use fleet_words::FleetWords;
pub use numbers::{Agent, Positions};
pub use peer_words::{PeerCommand, read_peer_words};
pub use reading::NAME_LIMIT;
pub use run_book::RunBook;
pub use run_words::RunWords;
pub use words::{Command, read_words};
