// Sites in memory, with journals and filters on them, played by rows.
use std::io;
use std::rt::Files;
use test_disk_calls::Disks;
use test_rows::{Row, Tally, read_file};

/// The files of rows on sites in memory.
const NAMES: [&str; 6] = [
    "site_disks.txt",
    "site_lines.txt",
    "site_links.txt",
    "site_shelves.txt",
    "site_journals.txt",
    "site_filters.txt",
];

/// Plays rows, and compares nothing.
fn play_again(disks: &mut Disks, rows: &[Row]) -> io::Result<()> {
    for row in rows {
        disks.answer(row)?;
    }
    Ok(())
}

/// How many rows a row plays again, where it is such a row.
fn again(row: &Row) -> Option<usize> {
    if row.text(0) != "again" {
        return None;
    }
    match row.text(1).parse::<usize>() {
        Ok(count) => Some(count),
        Err(_) => None,
    }
}

/// The rows of this count from this one on, as far as there are so many.
fn some_rows(rows: &[Row], first: usize, count: usize) -> &[Row] {
    let first = first.min(rows.len());
    let behind = &rows[first..];
    &behind[..count.min(behind.len())]
}

/// Plays the rows of a file. A row `again COUNT` plays the rows from the last `site` on once more, so many of them.
fn play(rt: &(impl Print + AllocGlobal), rows: &[Row], tally: &mut Tally) -> io::Result<()> {
    let mut disks = Disks::new(rt.alloc())?;
    let mut first = 0usize;
    for (number, row) in rows.iter().enumerate() {
        if row.text(0) == "site" {
            first = number;
        }
        if let Some(count) = again(row) {
            play_again(&mut disks, some_rows(rows, first, count))?;
            tally.compare(rt, row, b"ok")?;
            continue;
        }
        let came = disks.answer(row)?;
        tally.compare(rt, row, came.as_slice())?;
    }
    Ok(())
}

/// Plays all rows on sites in memory, and tells whether all agreed.
pub(crate) fn play_site_rows(rt: &(impl Files + Print + AllocGlobal)) -> io::Result<bool> {
    let mut agree = true;
    for name in NAMES {
        let rows = read_file(rt, name)?;
        let mut tally = Tally::new(rt.alloc(), name)?;
        play(rt, rows.as_slice(), &mut tally)?;
        agree = tally.end(rt)? && agree;
    }
    Ok(agree)
}
