// Rows of bytes in hexadecimal: `record BYTES` and `act BYTES`.
use crate::answers::{none, text_of, unknown};
use run_records::{Act, BytesList, Record, read_act, read_record, write_act, write_record};
use std::alloc::{AllocError, Global};
use test_rows::Row;

/// The bytes of a text in hexadecimal digits, two a byte, with spaces between; those up to a word that is none.
fn bytes_of(alloc: Global, text: &str) -> Result<Vec<u8>, AllocError> {
    let mut bytes = Vec::new(alloc);
    for word in text.split(' ') {
        match u8::from_str_radix(word, 16) {
            Ok(byte) => bytes.push(byte)?,
            Err(_) => return Ok(bytes),
        }
    }
    Ok(bytes)
}

fn books_text(alloc: Global, books: &BytesList) -> Result<String, AllocError> {
    let mut text = String::new(alloc);
    for book in books.as_slice() {
        text.push(' ')?;
        text.push_str(text_of(book.as_slice()))?;
    }
    Ok(text)
}

/// A word, numbers, and a text if there is one, with a space between each two.
fn told(
    alloc: Global,
    word: &str,
    numbers: &[u64],
    text: Option<&str>,
) -> Result<String, AllocError> {
    let mut all = String::from_str(alloc, word)?;
    for number in numbers {
        write!(all, " {number}")?;
    }
    if let Some(text) = text {
        write!(all, " {text}")?;
    }
    Ok(all)
}

fn begin_text(
    alloc: Global,
    run: u64,
    moment: u64,
    books: &BytesList,
    bind: &str,
) -> Result<String, AllocError> {
    let count = books.len();
    let books = books_text(alloc, books)?;
    format!(in alloc; "Begin {run} {moment} \"{bind}\" {count}{books}")
}

fn record_text(alloc: Global, record: &Record) -> Result<String, AllocError> {
    match record {
        Record::Begin {
            run,
            moment,
            books,
            bind,
        } => begin_text(alloc, *run, *moment, books, text_of(bind.as_slice())),
        Record::Walk { task, moment } => told(alloc, "Walk", &[u64::from(*task), *moment], None),
        Record::Send {
            task,
            issue,
            agent,
            moment,
            bytes,
        } => {
            let numbers = [
                u64::from(*task),
                u64::from(*issue),
                u64::from(*agent),
                *moment,
            ];
            told(alloc, "Send", &numbers, Some(text_of(bytes.as_slice())))
        }
        Record::Reply {
            issue,
            moment,
            status,
            rule,
            text,
        } => {
            let numbers = [
                u64::from(*issue),
                *moment,
                u64::from(*status),
                u64::from(*rule),
            ];
            told(alloc, "Reply", &numbers, Some(text_of(text.as_slice())))
        }
        Record::Expire { issue, moment } => {
            told(alloc, "Expire", &[u64::from(*issue), *moment], None)
        }
        Record::Upgrade { version, moment } => {
            told(alloc, "Upgrade", &[u64::from(*version), *moment], None)
        }
        Record::Ask {
            task,
            issue,
            moment,
            bytes,
        } => {
            let numbers = [u64::from(*task), u64::from(*issue), *moment];
            told(alloc, "Ask", &numbers, Some(text_of(bytes.as_slice())))
        }
        Record::Told {
            issue,
            moment,
            status,
            text,
        } => {
            let numbers = [u64::from(*issue), *moment, u64::from(*status)];
            told(alloc, "Told", &numbers, Some(text_of(text.as_slice())))
        }
    }
}

fn act_text(alloc: Global, act: &Act) -> Result<String, AllocError> {
    let run = act.run;
    let issue = act.issue;
    let moment = act.moment;
    let command = text_of(act.command.as_slice());
    let reply = text_of(act.reply.as_slice());
    format!(in alloc; "{run} {issue} {moment} {command} {reply}")
}

/// The fields of a record, where it is written as it was read and a copy equals it.
fn record(alloc: Global, bytes: &[u8]) -> Result<String, AllocError> {
    let Some(record) = read_record(alloc, bytes)? else {
        return none(alloc);
    };
    let written = write_record(alloc, &record)?;
    let copy = record.clone()?;
    if written.as_slice() != bytes {
        String::from_str(alloc, "written otherwise")
    } else if copy != record {
        String::from_str(alloc, "a copy differs")
    } else {
        record_text(alloc, &record)
    }
}

/// The fields of an act, where it is written as it was read.
fn act(alloc: Global, bytes: &[u8]) -> Result<String, AllocError> {
    let Some(act) = read_act(alloc, bytes)? else {
        return none(alloc);
    };
    let written = write_act(alloc, &act)?;
    if written.as_slice() == bytes {
        act_text(alloc, &act)
    } else {
        String::from_str(alloc, "written otherwise")
    }
}

/// What a row answers.
pub(crate) fn answer(alloc: Global, row: &Row) -> Result<String, AllocError> {
    let bytes = bytes_of(alloc, row.text(1))?;
    match row.text(0) {
        "record" => record(alloc, bytes.as_slice()),
        "act" => act(alloc, bytes.as_slice()),
        _ => unknown(alloc),
    }
}
