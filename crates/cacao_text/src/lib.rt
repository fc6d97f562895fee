//! Trees as canonical text (RFC 8785).
#![tactic(auto)]

pub mod bytes;
pub mod laws;
mod order;
mod units;
pub mod write;

pub use bytes::Bytes2;
pub use laws::canonical_law;
pub use write::{canonical, canonical_book, canonical_book_with_room, canonical_string};
