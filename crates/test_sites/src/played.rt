// Rows of a file, played on what answers them.
use std::alloc::AllocError;
use std::io;
use std::rt::Files;
use test_rows::{Row, Tally, read_file};

/// What rows are played on.
pub(crate) trait Answers {
    /// What comes of a row; `no such row` where there is no call of that name.
    fn answer(&mut self, row: &Row) -> Result<Vec<u8>, AllocError>;
}

/// Plays a row, and compares what came of it.
fn play_row<A: Answers>(
    rt: &(impl Print + AllocGlobal),
    tally: &mut Tally,
    answers: &mut A,
    row: &Row,
) -> io::Result<()> {
    let came = answers.answer(row)?;
    tally.compare(rt, row, came.as_slice())
}

/// Plays the rows of a file, and tells whether all agreed.
pub(crate) fn play<A: Answers>(
    rt: &(impl Files + Print + AllocGlobal),
    name: &str,
    answers: &mut A,
) -> io::Result<bool> {
    let rows = read_file(rt, name)?;
    let mut tally = Tally::new(rt.alloc(), name)?;
    for row in rows.iter() {
        play_row(rt, &mut tally, answers, row)?;
    }
    tally.end(rt)
}
