//! A site whose parcels go to another process, and come from it, as lines over a link.
//!
//! The end that asks puts commands and takes replies; the end that answers takes commands and puts replies. The disk, the
//! lines that are said and the clock are those of the site beneath.
#![tactic(auto)]

mod entries;
mod laws;
mod line_link;
mod line_room;
mod link_state;
mod mark;
mod putting;
mod reading;
mod receiving;
mod sending;
mod taking;
mod wire_calls;
mod wire_disk;
mod wire_site;

pub use laws::wire_law;
pub use line_room::LineRoom;
pub use link_state::LinkState;
pub use wire_site::WireSite;
