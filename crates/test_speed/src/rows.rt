// The files of rows.
use crate::lines::text_of;
use crate::played::Played;
use crate::runs::answer;
use crate::texts::Texts;
use std::io;
use std::process::ExitCode;
use std::rt::Files;
use test_rows::{Row, Tally, read_file};

/// Compares what comes of a row, by the run that the rows before it played, with its last field, whose names are spelled out.
fn compare(
    rt: &(impl Print + AllocGlobal),
    texts: &Texts,
    played: &mut Option<Played>,
    tally: &mut Tally,
    row: &Row,
) -> io::Result<()> {
    let came = answer(rt.alloc(), texts, played, row)?;
    let wanted = texts.whole(text_of(row.wanted()))?;
    if wanted == came {
        tally.compare(rt, row, row.wanted())
    } else {
        tally.compare(rt, row, came.as_bytes())
    }
}

/// Compares rows, the first of which follow this run.
fn compare_on(
    rt: &(impl Print + AllocGlobal),
    texts: &Texts,
    played: &mut Option<Played>,
    tally: &mut Tally,
    rows: &[Row],
) -> io::Result<()> {
    for row in rows {
        compare(rt, texts, played, tally, row)?;
    }
    Ok(())
}

/// Compares rows. Whether all of them agreed.
fn compare_rows(
    rt: &(impl Print + AllocGlobal),
    texts: &Texts,
    name: &str,
    rows: &[Row],
) -> io::Result<bool> {
    let mut tally = Tally::new(rt.alloc(), name)?;
    let mut played = None;
    let told = compare_on(rt, texts, &mut played, &mut tally, rows);
    drop(played);
    told?;
    tally.end(rt)
}

/// Compares the rows of the file of this name. Whether all of them agreed.
fn compare_file<R: Files + Print + AllocGlobal>(
    rt: &R,
    texts: &Texts,
    name: &str,
) -> io::Result<bool> {
    let file = format!(in rt.alloc(); "{name}.rows")?;
    let rows = read_file(rt, file.as_str())?;
    compare_rows(rt, texts, name, rows.as_slice())
}

/// The texts with names.
fn read_texts<R: Files + AllocGlobal>(rt: &R) -> io::Result<Texts> {
    let rows = read_file(rt, "texts.rows")?;
    Ok(Texts::of(rt.alloc(), rows.as_slice())?)
}

/// Compares all files.
pub(crate) fn compare_all<R: Files + Print + AllocGlobal>(rt: &R) -> io::Result<ExitCode> {
    let texts = read_texts(rt)?;
    let setups = compare_file(rt, &texts, "setups")?;
    let runs = compare_file(rt, &texts, "runs")?;
    if setups && runs {
        Ok(ExitCode::SUCCESS)
    } else {
        Ok(ExitCode::FAILURE)
    }
}
