// Rows of a file, played on what they ask.
use std::alloc::AllocError;
use std::io;
use std::rt::Files;
use test_rows::{Row, Tally, read_file};

/// What came of a row.
#[derive(Drop)]
pub(crate) enum Came {
    /// It asks nothing.
    Done,
    Said(Vec<u8>),
    NotUnderstood,
}

/// What rows are played on.
pub(crate) trait Plays {
    /// Plays a row.
    fn play(&mut self, row: &Row) -> Result<Came, AllocError>;
}

/// Plays a row, and compares what came of it.
fn play_row<P: Plays>(
    rt: &(impl Print + AllocGlobal),
    plays: &mut P,
    tally: &mut Tally,
    row: &Row,
) -> io::Result<()> {
    match plays.play(row)? {
        Came::Done => Ok(()),
        Came::Said(said) => tally.compare(rt, row, said.as_slice()),
        Came::NotUnderstood => tally.compare(rt, row, b"the row is not understood"),
    }
}

/// Plays a file; true where all rows agreed.
pub(crate) fn play_file<P: Plays>(
    rt: &(impl Print + Files + AllocGlobal),
    plays: &mut P,
    name: &str,
) -> io::Result<bool> {
    let rows = read_file(rt, name)?;
    let mut tally = Tally::new(rt.alloc(), name)?;
    for row in &rows {
        play_row(rt, plays, &mut tally, row)?;
    }
    tally.end(rt)
}
