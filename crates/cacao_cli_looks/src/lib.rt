//! The commands of the program that hold no session: each reads the files of its words, opens one file of the disk at most, and says
//! lines.
#![tactic(auto)]

mod audit_command;
mod canon_command;
mod check_command;
mod file;
mod file_text;
mod filters;
pub mod judge;
mod packets;
mod say_text;
mod show_command;
mod tree;

pub use audit_command::audit;
pub use canon_command::canon;
pub use check_command::check;
pub use file::{read_bytes, read_files};
pub use file_text::FileText;
pub use filters::{decide, say_rules, say_shadows};
pub use show_command::show;
pub use tree::{json_end, trees_of};
