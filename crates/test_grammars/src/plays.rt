// The files of rows, and what answers them.
use crate::samples::Samples;
use crate::{books, canon, checks, conds, ids, shapes, trees, vars};
use std::alloc::{AllocError, Global};
use std::io;
use std::rt::Files;
use test_rows::{Row, Tally, read_file};

/// The crate that a file of rows is about.
#[derive(Clone, Copy)]
enum Subject {
    Trees,
    Canon,
    Ids,
    Vars,
    Conds,
    Shapes,
    Books,
    Checks,
}

impl Subject {
    /// The name of the crate.
    fn name(self) -> &'static str {
        match self {
            Subject::Trees => "cacao_json",
            Subject::Canon => "cacao_text",
            Subject::Ids => "cacao_ids",
            Subject::Vars => "cacao_vars",
            Subject::Conds => "cacao_cond",
            Subject::Shapes => "cacao_book_shape",
            Subject::Books => "cacao_book",
            Subject::Checks => "cacao_check",
        }
    }

    /// What the crate answers.
    fn answer(self, alloc: Global, samples: &Samples, row: &Row) -> Result<String, AllocError> {
        match self {
            Subject::Trees => trees::answer(alloc, row),
            Subject::Canon => canon::answer(alloc, row),
            Subject::Ids => ids::answer(alloc, row),
            Subject::Vars => vars::answer(alloc, row),
            Subject::Conds => conds::answer(alloc, row),
            Subject::Shapes => shapes::answer(alloc, samples, row),
            Subject::Books => books::answer(alloc, samples, row),
            Subject::Checks => checks::answer(alloc, samples, row),
        }
    }
}

/// Plays a row.
fn play_row(
    rt: &(impl Print + AllocGlobal),
    samples: &Samples,
    subject: Subject,
    tally: &mut Tally,
    row: &Row,
) -> io::Result<()> {
    let came = subject.answer(rt.alloc(), samples, row)?;
    tally.compare(rt, row, came.as_str().as_bytes())
}

/// Plays rows; true where all agree.
fn play_rows(
    rt: &(impl Print + AllocGlobal),
    samples: &Samples,
    subject: Subject,
    rows: &[Row],
) -> io::Result<bool> {
    let mut tally = Tally::new(rt.alloc(), subject.name())?;
    for row in rows {
        play_row(rt, samples, subject, &mut tally, row)?;
    }
    tally.end(rt)
}

/// Plays the file of rows of a crate; true where all agree.
fn play(
    rt: &(impl Files + Print + AllocGlobal),
    samples: &Samples,
    subject: Subject,
) -> io::Result<bool> {
    let name = subject.name();
    let file = format!(in rt.alloc(); "{name}.rows")?;
    let rows = read_file(rt, file.as_str())?;
    play_rows(rt, samples, subject, rows.as_slice())
}

/// Plays all files of rows; true where all agree.
pub(crate) fn play_all(rt: &(impl Files + Print + AllocGlobal)) -> io::Result<bool> {
    let samples = Samples::read(rt)?;
    let mut agree = true;
    for subject in [
        Subject::Trees,
        Subject::Canon,
        Subject::Ids,
        Subject::Vars,
        Subject::Conds,
        Subject::Shapes,
        Subject::Books,
        Subject::Checks,
    ] {
        if !play(rt, &samples, subject)? {
            agree = false;
        }
    }
    Ok(agree)
}
