//! JSON text as a tree: what `serde_json` reads, with each name once and each number whole.
#![tactic(auto)]

mod convert;
mod copy;
pub mod error;
mod find;
pub mod laws;
mod place;
pub mod read;
mod rooms;
mod straight;
pub mod tree;
mod whole;
mod wide;

pub use base_texts::Text;
pub use copy::copy_tree;
pub use error::JsonError;
pub use find::{member, text_of, whole_of};
pub use laws::profile_law;
pub use read::{TEXT_LIMIT, find_tree, find_tree_with, read_tree};
pub use tree::{Items, Pair, Pairs, Tree, tree_law};
