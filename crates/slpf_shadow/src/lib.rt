//! Which rules of a packet filter (OpenC2 SLPF 1.0) never decide, since an earlier rule by itself decides first.
#![tactic(auto)]

mod connections;
mod listing;
mod nets;
mod searching;
mod shadow_lists;
mod shadowing;
mod shapes;

pub use listing::shadowed;
pub use shadow_lists::{Shadow, ShadowList};
pub use shapes::flow_within;
