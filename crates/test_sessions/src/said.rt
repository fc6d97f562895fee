// What sessions said and left.
use crate::asked::asked_of;
use crate::texts::{close, no_row, session_error};
use cacao_site::Parcel;
use std::alloc::{AllocError, Global};
use std::str::from_utf8;
use test_rows::Row;
use test_session_plays::{Book, Came, Files, Play, cut, fair, whole};

/// What came of a session.
fn came_text(alloc: Global, came: Came) -> Result<String, AllocError> {
    match came {
        Came::NoSetup => String::from_str(alloc, "no setup"),
        Came::NoAnswers => String::from_str(alloc, "no answers"),
        Came::Closed(how) => close(alloc, how),
        Came::Refused(error) => session_error(alloc, error),
    }
}

/// Plays a session: the lines that it said and what came of it.
pub(crate) fn session(alloc: Global, play: &mut Play, row: &Row) -> Result<String, AllocError> {
    let Some(asked) = asked_of(row.text(2), row.text(3)) else {
        return no_row(alloc);
    };
    let before = play.line_count();
    let came = play.play(asked);
    let mut said = String::new(alloc);
    for number in before..play.line_count() {
        said.push_str(play.line(number)?.as_str())?;
    }
    said.push_str(came_text(alloc, came)?.as_str())?;
    Ok(said)
}

/// Plays a session: how many lines it said, and what came of it.
pub(crate) fn count(alloc: Global, play: &mut Play, row: &Row) -> Result<String, AllocError> {
    let Some(asked) = asked_of(row.text(2), row.text(3)) else {
        return no_row(alloc);
    };
    let before = play.line_count();
    let came = came_text(alloc, play.play(asked))?;
    let lines = play.line_count().saturating_sub(before);
    format!(in alloc; "records {lines}, {came}")
}

/// Adds a parcel: whether it goes to a filter or comes from one, this filter, the run, the issue and the bytes.
fn add_parcel(said: &mut String, alloc: Global, parcel: &Parcel) -> Result<(), AllocError> {
    let way = if parcel.back { "from" } else { "to" };
    write!(
        said,
        "{way} {} {} {} ",
        parcel.agent, parcel.run, parcel.issue
    )?;
    match from_utf8(parcel.bytes.as_slice()) {
        Ok(text) => said.push_str(cut(alloc, text)?.as_str())?,
        Err(_) => said.push_str("no text")?,
    }
    said.push_str("\n")
}

/// Each parcel that was put, a line each.
pub(crate) fn parcels(alloc: Global, play: &Play) -> Result<String, AllocError> {
    let mut said = String::new(alloc);
    for number in 0..play.put_count() {
        if let Some(parcel) = play.parcel(number) {
            add_parcel(&mut said, alloc, parcel)?;
        }
    }
    Ok(said)
}

/// Whether the parcel of this number was put, and is a reply.
fn is_reply(play: &Play, number: usize) -> bool {
    match play.parcel(number) {
        Some(parcel) => parcel.back,
        None => false,
    }
}

/// How many commands and replies were put.
pub(crate) fn puts(alloc: Global, play: &Play) -> Result<String, AllocError> {
    let mut replies = 0usize;
    for number in 0..play.put_count() {
        if is_reply(play, number) {
            replies = replies.saturating_add(1);
        }
    }
    let commands = play.put_count().saturating_sub(replies);
    format!(in alloc; "commands {commands}, replies {replies}")
}

/// How many acts and rules the filters have.
pub(crate) fn held(alloc: Global, play: &mut Play) -> Result<String, AllocError> {
    match play.held() {
        Some(held) => format!(in alloc; "acts {}, rules {}", held.acts, held.rules),
        None => String::from_str(alloc, "no acts"),
    }
}

/// Both.
pub(crate) fn left(alloc: Global, play: &mut Play) -> Result<String, AllocError> {
    let puts = puts(alloc, play)?;
    let held = held(alloc, play)?;
    format!(in alloc; "{puts}, {held}")
}

/// How many bytes a file has.
pub(crate) fn size(alloc: Global, play: &mut Play, row: &Row) -> Result<String, AllocError> {
    let Ok(number) = row.text(2).parse::<u8>() else {
        return no_row(alloc);
    };
    match play.file(number) {
        Some(bytes) => format!(in alloc; "{}", bytes.len()),
        None => String::from_str(alloc, "not read"),
    }
}

/// The files of a whole run; nothing where they can't be read.
pub(crate) fn whole_files(alloc: Global) -> Result<Option<Files>, AllocError> {
    let mut play = Play::new(alloc, fair())?;
    play.play(whole(Book::Block));
    Ok(play.files())
}

/// Whether a site has these files, and all others are blank.
pub(crate) fn has(play: &mut Play, files: &Files) -> bool {
    match play.files() {
        Some(found) => {
            found.journal == files.journal
                && found.filter == files.filter
                && play.are_others_blank()
        }
        None => false,
    }
}

/// Whether a site has the files of the whole run.
pub(crate) fn same(alloc: Global, play: &mut Play) -> Result<String, AllocError> {
    match whole_files(alloc)? {
        Some(files) if has(play, &files) => String::from_str(alloc, "the same files"),
        _ => String::from_str(alloc, "other files"),
    }
}

/// Whether a file was written.
fn written(alloc: Global, is_written: bool) -> Result<String, AllocError> {
    if is_written {
        String::from_str(alloc, "written")
    } else {
        String::from_str(alloc, "not written")
    }
}

/// Writes a file from its front on.
pub(crate) fn fill(alloc: Global, play: &mut Play, row: &Row) -> Result<String, AllocError> {
    match row.text(2).parse::<u8>() {
        Ok(number) => written(alloc, play.fill(number, row.bytes(3))),
        Err(_) => no_row(alloc),
    }
}

/// Writes file 0 or file 1 as it is behind a whole run.
pub(crate) fn copy(alloc: Global, play: &mut Play, row: &Row) -> Result<String, AllocError> {
    match (row.text(2), whole_files(alloc)?) {
        ("0", Some(files)) => written(alloc, play.fill(0, files.journal.as_slice())),
        ("1", Some(files)) => written(alloc, play.fill(1, files.filter.as_slice())),
        _ => no_row(alloc),
    }
}
