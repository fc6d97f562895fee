// Rows of what operators answer.
use crate::texts::no_row;
use flow_engine_answers::AnswerError;
use std::alloc::{AllocError, Global};
use std::io;
use std::rt::Files;
use std::str::from_utf8;
use test_rows::{Row, Tally, read_file};
use test_session_plays::answers;

/// The text with these bytes; the empty text where they are no UTF-8.
fn text_of(bytes: &[u8]) -> &str {
    match from_utf8(bytes) {
        Ok(text) => text,
        Err(_) => "",
    }
}

/// The answers for a run in a text, or its first bad line.
fn answers_text(alloc: Global, text: &str, run: u64) -> Result<String, AllocError> {
    match answers(alloc, text, run) {
        Ok(answers) => {
            let mut said = format!(in alloc; "answers {}", answers.as_slice().len())?;
            for answer in answers.as_slice() {
                let text = text_of(answer.text.as_slice());
                write!(said, "\n{} {} {}", answer.issue, answer.status, text)?;
            }
            Ok(said)
        }
        Err(AnswerError::Line { number }) => format!(in alloc; "line {number}"),
        Err(AnswerError::Memory) => String::from_str(alloc, "memory"),
    }
}

/// What came of a row.
fn came(alloc: Global, row: &Row) -> Result<String, AllocError> {
    match row.text(0).parse::<u64>() {
        Ok(run) => answers_text(alloc, row.text(1), run),
        Err(_) => no_row(alloc),
    }
}

/// Plays the rows of the file `answers.rows`; whether all agreed.
pub(crate) fn play(rt: &(impl Print + Files + AllocGlobal)) -> io::Result<bool> {
    let rows = read_file(rt, "answers.rows")?;
    let mut tally = Tally::new(rt.alloc(), "answers")?;
    for row in rows.as_slice() {
        let came = came(rt.alloc(), row)?;
        tally.compare(rt, row, came.as_str().as_bytes())?;
    }
    tally.end(rt)
}
