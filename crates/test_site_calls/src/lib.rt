//! Calls of a site and of a shelf that rows ask for, with their answers as bytes: the same for sites in memory and for those over the
//! system. No function promises more than that it is safe and ends, but those of `composed`, whose clauses follow from the traits'.
#![tactic(auto)]

pub mod answers;
mod composed;
mod disk;
mod fields;
mod many;
mod rack;
mod shelf;
mod site;

pub use composed::sync_lent;
pub use fields::{number, small};
pub use shelf::outside_answer;
pub use site::{parcel_answer, site_answer};
