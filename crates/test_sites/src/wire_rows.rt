// The lines of a wire, links and peers in memory, and sites over links, played by rows.
use crate::ends::Ends;
use crate::links::Links;
use crate::played::play;
use std::io;
use std::rt::Files;

/// The files of rows on lines, links and peers.
const NAMES: [&str; 3] = ["wire_lines.txt", "wire_links.txt", "wire_peers.txt"];

/// Plays the rows on sites over links, and tells whether all agreed.
fn play_ends(rt: &(impl Files + Print + AllocGlobal)) -> io::Result<bool> {
    let mut ends = Ends::new(rt.alloc());
    play(rt, "wire_sites.txt", &mut ends)
}

/// Plays the rows of a file on lines, links and peers, and tells whether all agreed.
fn play_links(rt: &(impl Files + Print + AllocGlobal), name: &str) -> io::Result<bool> {
    let mut links = Links::new(rt.alloc());
    play(rt, name, &mut links)
}

/// Plays all rows on lines, links, peers and wires, and tells whether all agreed.
pub(crate) fn play_wire_rows(rt: &(impl Files + Print + AllocGlobal)) -> io::Result<bool> {
    let mut agree = play_ends(rt)?;
    for name in NAMES {
        agree = play_links(rt, name)? && agree;
    }
    Ok(agree)
}
