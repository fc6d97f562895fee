//! Sites in memory with journals and filters on them, sites over links, and the site and the shelf over the system, played by rows of the
//! files of `data`: each row is a call, with what comes of it in its last field. For each file the number of its rows is printed, and each
//! row that differs.
#![tactic(auto)]

mod ends;
mod file_rows;
mod folder;
mod lines;
mod links;
mod outside;
mod plans;
mod played;
mod site_rows;
mod slow;
mod streams;
mod wire_rows;
mod wires;

use crate::file_rows::play_file_rows;
use crate::site_rows::play_site_rows;
use crate::wire_rows::play_wire_rows;
use std::io;

fn main(rt: HostRuntime) -> io::Result<()> {
    let sites = play_site_rows(&rt)?;
    let wires = play_wire_rows(&rt)?;
    let files = play_file_rows(&rt)?;
    if sites && wires && files {
        Ok(())
    } else {
        Err(io::Error::from(io::ErrorKind::Other))
    }
}
