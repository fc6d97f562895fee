//! What the program says of a filter (OpenC2 SLPF 1.0): its rules, its decisions for the packets of a file, and the rules that never
//! decide. The lines are this project's own.
#![tactic(auto)]

mod decisions;
mod flows;
mod packet_files;
mod rules;
mod shadows;

pub use decisions::decision_lines;
pub use packet_files::{PacketsError, read_packets};
pub use rules::rule_lines;
pub use shadows::shadow_lines;
