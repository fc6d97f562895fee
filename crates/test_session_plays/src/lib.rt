//! Sessions and fleets on sites in memory, played for worked cases: playbooks, what is outside the engines and the filters, and what came
//! of them in plain values. No function promises more than that it is safe and ends.
#![tactic(auto)]

mod books;
mod fleets;
mod outside;
mod play;

pub use books::{Book, cut, spelled_out, text};
pub use fleets::{FleetCame, Run};
pub use outside::{LATE, Outside, fair};
pub use play::{Asked, Came, Files, Held, Play, answers, whole};
