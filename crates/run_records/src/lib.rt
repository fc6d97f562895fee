//! The records of a run and the acts of a filter, as bytes of a journal, both ways.
//!
//! One definition lays out each value; writing gives its bytes, and reading inverts writing.
#![tactic(auto)]

mod act;
mod bytes_list;
mod fields;
mod laws;
mod reading;
mod record;
mod writing;

pub use act::Act;
pub use bytes_list::BytesList;
pub use laws::{entries_law, one_value_a_layout};
pub use reading::{LAST_MOMENT, read_act, read_record};
pub use record::Record;
pub use writing::{write_act, write_record};
