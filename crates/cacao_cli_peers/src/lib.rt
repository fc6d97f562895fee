//! The commands that work with a peer: a session whose filters stand in another process, and these filters.
#![tactic(auto)]

mod beneath;
mod ending;
mod pairing;
mod serving;

pub use cacao_cli_starts::{Ready, make_ready};
pub use pairing::pair;
pub use serving::serve;
