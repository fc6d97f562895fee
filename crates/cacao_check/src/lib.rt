//! Whether CACAO 2.0 playbooks break a rule: those of their shape (K1 to K12), and those that ask for sense together (K13 to K25); and
//! what a text of each kind is.
#![tactic(auto)]

mod book_rules;
mod books;
mod breaks;
mod checked;
mod checking;
mod fits;
mod laws;
mod reading;
mod rules;
mod sight_rules;
mod step_rules;
mod walking;

pub use books::Books;
pub use breaks::{Break, CheckError, Mode};
pub use cacao_check_regions::{Seen, Sight};
pub use cacao_check_steps::Parts;
pub use checked::Checked;
pub use checking::check;
pub use fits::value_fits;
pub use laws::{results_fit, sound_ends, sound_gives};
pub use reading::{read_books, shaped_books};
pub use rules::SenseRule;
