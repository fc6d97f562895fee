//! The first break of playbooks as a person wants it: what is at fault, where it stands, and the rule.
#![tactic(auto)]

mod at_fault;
mod books;
mod break_lines;
mod call_faults;
mod explaining;
mod finding;
mod lines;
mod name_faults;
mod name_findings;
mod name_places;
mod part;
mod part_line;
mod sense_faults;
mod shape_faults;
mod shape_parts;
mod spot;
mod survey_findings;
mod unread;
mod wants;

pub use explaining::explain;
