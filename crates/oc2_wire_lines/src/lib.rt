//! The lines by which parcels go over a wire between two processes, both ways.
//!
//! A line is `c AGENT RUN ISSUE TEXT` (a command), `r AGENT RUN ISSUE TEXT` (a reply) or `n` (nothing), and a line feed.
#![tactic(auto)]

mod laws;
mod reading;
mod writing;

pub use laws::lines_law;
pub use reading::{first_line, read_line};
pub use writing::{MOST_LINE, is_carried, nothing_line, write_line};
