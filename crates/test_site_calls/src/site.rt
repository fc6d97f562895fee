// The calls of a site beside those of its disk.
use crate::answers::{done, text, whole};
use crate::composed::look_and_say_twice;
use crate::disk::disk_answer;
use crate::fields::{number, small};
use cacao_site::{Bytes, Parcel, Site};
use std::alloc::{AllocError, Global};
use test_rows::Row;

/// A command of run 7 to agent 1 with these bytes.
fn command(alloc: Global, issue: u64, bytes: &[u8]) -> Result<Parcel, AllocError> {
    Ok(Parcel {
        agent: 1,
        back: false,
        run: 7,
        issue: issue.min(u32::MAX as u64) as u32,
        bytes: Bytes::from_slice(alloc, bytes)?,
    })
}

/// A parcel: `command` or `reply`, its agent, its run, its issue and its bytes.
pub fn parcel_answer(alloc: Global, parcel: &Parcel) -> Result<Vec<u8>, AllocError> {
    let kind = if parcel.back { "reply" } else { "command" };
    let agent = parcel.agent;
    let run = parcel.run;
    let issue = parcel.issue;
    let mut answer = format!(in alloc; "{kind} {agent} {run} {issue} ")?.into_bytes();
    answer.extend_from_slice(parcel.bytes.as_slice())?;
    Ok(answer)
}

/// The answer to a row that is a call of a site, or else of its disk; `no such row` where it is none.
///
/// `put ISSUE BYTES` puts a command of run 7 to agent 1; `take`, `say LINE`, `reach MOMENT`; `look_and_say FILE LINE` asks a file's
/// length and says a line, twice; `copy ISSUE BYTES OTHERS` compares a command with its copy, and with one that has other bytes.
pub fn site_answer<S: Site>(alloc: Global, site: &mut S, row: &Row) -> Result<Vec<u8>, AllocError> {
    match row.text(0) {
        "put" => put(alloc, site, row),
        "take" => take(alloc, site),
        "say" => done(alloc, site.say(row.bytes(1))),
        "reach" => whole(alloc, site.reach(number(row, 1))),
        "look_and_say" => {
            let file = small(row, 1).min(15);
            done(alloc, look_and_say_twice(site, file, row.bytes(2)))
        }
        "copy" => compare(alloc, row),
        _ => disk_answer(alloc, site, row),
    }
}

fn put<S: Site>(alloc: Global, site: &mut S, row: &Row) -> Result<Vec<u8>, AllocError> {
    site.put(command(alloc, number(row, 1), row.bytes(2))?);
    text(alloc, "ok")
}

fn take<S: Site>(alloc: Global, site: &mut S) -> Result<Vec<u8>, AllocError> {
    match site.take()? {
        Some(parcel) => parcel_answer(alloc, &parcel),
        None => text(alloc, "none"),
    }
}

fn compare(alloc: Global, row: &Row) -> Result<Vec<u8>, AllocError> {
    let one = command(alloc, number(row, 1), row.bytes(2))?;
    let other = command(alloc, number(row, 1), row.bytes(3))?;
    let copy = one.clone()?;
    let word = match (one == copy, one != other) {
        (true, true) => "equals its copy alone",
        _ => "no",
    };
    text(alloc, word)
}
