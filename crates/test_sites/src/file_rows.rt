// The site and the shelf over the system on real files, played by rows. The files are made in the folder that the program runs in.
use crate::outside::Outside;
use crate::played::play;
use std::fs::File;
use std::io;
use std::rt::Files;

/// Plays all rows on the site and the shelf over the system, and tells whether all agreed.
pub(crate) fn play_file_rows<R: Files<File = File> + Print + AllocGlobal>(
    rt: &R,
) -> io::Result<bool> {
    let mut outside = Outside::new(rt, rt.alloc());
    play(rt, "files.txt", &mut outside)
}
