// Calls on lines.
use cacao_site::{Bytes, Parcel};
use oc2_wire_lines::{first_line, is_carried, nothing_line, read_line, write_line};
use std::alloc::{AllocError, Global};
use test_rows::Row;
use test_site_calls::answers::{no_such_row, text, whole};
use test_site_calls::number;

/// The parcel of a row `CALL LETTER AGENT RUN ISSUE ..`, with these bytes.
fn parcel(row: &Row, bytes: Bytes) -> Parcel {
    Parcel {
        agent: (number(row, 2) % 256) as u8,
        back: row.text(1) == "r",
        run: number(row, 3),
        issue: (number(row, 4) % 4_294_967_296) as u32,
        bytes,
    }
}

/// The line of a parcel; `no line` where no line can carry it.
fn written(alloc: Global, parcel: &Parcel) -> Result<Vec<u8>, AllocError> {
    if !is_carried(parcel) {
        return text(alloc, "no line");
    }
    let line = write_line(alloc, parcel)?;
    Ok(line.into_vec())
}

/// The fields of a parcel.
fn fields(alloc: Global, parcel: &Parcel) -> Result<Vec<u8>, AllocError> {
    let agent = parcel.agent;
    let run = parcel.run;
    let issue = parcel.issue;
    let mut answer = format!(in alloc; "agent {agent} run {run} issue {issue} ")?.into_bytes();
    answer.extend_from_slice(parcel.bytes.as_slice())?;
    Ok(answer)
}

/// The fields of the parcel that a line is; `nothing` where it is none.
fn read(alloc: Global, back: bool, line: &[u8]) -> Result<Vec<u8>, AllocError> {
    match read_line(alloc, back, line)? {
        Some(parcel) => fields(alloc, &parcel),
        None => text(alloc, "nothing"),
    }
}

/// The first line and what stands behind it; `no line` where there is none.
fn first(alloc: Global, bytes: &[u8]) -> Result<Vec<u8>, AllocError> {
    let Some((line, rest)) = first_line(bytes) else {
        return text(alloc, "no line");
    };
    let mut answer = Vec::from_slice(alloc, line)?;
    answer.extend_from_slice(b" and ")?;
    answer.extend_from_slice(rest)?;
    Ok(answer)
}

/// The line of the parcel of a row.
fn write(alloc: Global, row: &Row) -> Result<Vec<u8>, AllocError> {
    let parcel = parcel(row, Bytes::from_slice(alloc, row.bytes(5))?);
    written(alloc, &parcel)
}

/// So many bytes that are alike.
fn alike(alloc: Global, size: u64) -> Result<Vec<u8>, AllocError> {
    let mut bytes = Vec::new(alloc);
    for _byte in 0..size.min(2_000_000) {
        bytes.push(b'a')?;
    }
    Ok(bytes)
}

/// How long the line of a parcel is; `no line` where no line can carry it.
fn line_size(alloc: Global, parcel: &Parcel) -> Result<Vec<u8>, AllocError> {
    if !is_carried(parcel) {
        return text(alloc, "no line");
    }
    let line = write_line(alloc, parcel)?;
    whole(alloc, line.as_slice().len() as u64)
}

/// How long the line of a parcel is that has so many bytes, which are alike.
fn long(alloc: Global, row: &Row) -> Result<Vec<u8>, AllocError> {
    let bytes = alike(alloc, number(row, 5))?;
    line_size(alloc, &parcel(row, Bytes::from_vec(bytes)))
}

/// What comes of a call on lines; `no such row` where the row is none.
pub(crate) fn line_answer(alloc: Global, row: &Row) -> Result<Vec<u8>, AllocError> {
    match row.text(0) {
        "write" => write(alloc, row),
        "long" => long(alloc, row),
        "read" => read(alloc, row.text(1) == "r", row.bytes(2)),
        "first" => first(alloc, row.bytes(1)),
        "nothing" => Vec::from_slice(alloc, nothing_line()),
        _ => no_such_row(alloc),
    }
}
