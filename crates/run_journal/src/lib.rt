//! The gated journal: entries of a file, each durable before it is acknowledged.
#![tactic(auto)]

mod append;
mod blocks;
mod durable;
pub mod entries;
pub mod error;
pub mod image;
pub mod journal;
pub mod laws;
mod layout;
mod opening;
mod packed;
mod prepare;
mod reader;
mod store;
mod taking;

pub use entries::{Entries, Entry};
pub use error::{ImageError, JournalError};
pub use image::read_image;
pub use journal::Journal;
pub use laws::layout_law;
