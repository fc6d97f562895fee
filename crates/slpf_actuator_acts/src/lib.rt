//! What a packet filter that survives crashes keeps of its acts: the acts in order with the table that they make, an act on a
//! command, which is kept in a journal, and the acts of a journal's entries.
#![tactic(auto)]

mod answering;
pub mod history;
pub mod keeping;
mod laws;
mod replaying;

pub use answering::{Answered, Asked, answer};
pub use history::History;
pub use keeping::{Made, keep, make, reply_parcel};
pub use laws::damage_law;
pub use replaying::replay;
