//! Fleets on racks in memory under weather that is drawn by chance: parcels are lost, doubled and held back, calls of the device fail, devices
//! stop, and crashes follow. What each call said and left is compared. No function promises more than that it is safe and ends.
#![tactic(auto)]

mod acts;
mod books;
mod calls;
mod closes;
mod counts;
mod draw;
mod looks;
mod parcels;
mod plans;
mod replay;
mod rounds;
mod said;
mod turns;

pub use books::Books;
pub use counts::Counts;
pub use rounds::{Found, play};
