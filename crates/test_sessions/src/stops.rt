// Device calls that fail, devices that stop, and crashes behind them.
use crate::said::{has, whole_files};
use flow_world::{Close, WorldError};
use std::alloc::{AllocError, Global};
use test_session_plays::{Book, Came, Files, Outside, Play, fair, whole};

/// What came of a session.
#[derive(Clone, Copy)]
enum End {
    /// The run has ended well.
    Well,
    /// The disk failed.
    Disk,
    /// A line could not be said.
    Say,
    Else,
}

/// How many first sessions came to each end, where the second one ended well with the files of the whole run, and how many cases
/// there were beside them.
#[derive(Clone, Copy)]
struct Count {
    well: u32,
    disk: u32,
    say: u32,
    other: u32,
}

impl Count {
    /// Counts a case.
    fn add(&mut self, end: End) {
        match end {
            End::Well => self.well = self.well.saturating_add(1),
            End::Disk => self.disk = self.disk.saturating_add(1),
            End::Say => self.say = self.say.saturating_add(1),
            End::Else => self.other = self.other.saturating_add(1),
        }
    }
}

/// No case.
const NONE: Count = Count {
    well: 0,
    disk: 0,
    say: 0,
    other: 0,
};

/// The end that a session came to.
fn end_of(came: Came) -> End {
    match came {
        Came::Closed(Close::Ended { well: true }) => End::Well,
        Came::Refused(WorldError::Disk) => End::Disk,
        Came::Refused(WorldError::Say) => End::Say,
        _ => End::Else,
    }
}

/// Whether a session ends well here, with the files of the whole run.
fn ends_whole(play: &mut Play, files: &Files) -> bool {
    match end_of(play.play(whole(Book::Block))) {
        End::Well => has(play, files),
        _ => false,
    }
}

/// The end of a session here, where one behind a crash that is picked so ends well with the files of the whole run.
fn end_under(
    alloc: Global,
    files: &Files,
    outside: Outside,
    choice: u64,
) -> Result<End, AllocError> {
    let mut play = Play::new(alloc, outside)?;
    let end = end_of(play.play(whole(Book::Block)));
    let mut play = play.crash(choice, fair())?;
    if ends_whole(&mut play, files) {
        Ok(end)
    } else {
        Ok(End::Else)
    }
}

/// Counts the cases of eight crashes.
fn count_under(
    alloc: Global,
    files: &Files,
    outside: Outside,
    count: Count,
) -> Result<Count, AllocError> {
    let mut count = count;
    for choice in 0..8u64 {
        count.add(end_under(alloc, files, outside, choice)?);
    }
    Ok(count)
}

/// What is outside where the device fails at a number: it stops behind so many calls, or the call of that number fails.
fn failing(is_stopped: bool, number: u32) -> Outside {
    if is_stopped {
        Outside {
            calls: number,
            ..fair()
        }
    } else {
        Outside {
            failing: Some(number),
            ..fair()
        }
    }
}

/// Counts the cases of each number, up to the first in which a session ends well.
fn count_all(alloc: Global, files: &Files, is_stopped: bool) -> Result<Count, AllocError> {
    let mut count = NONE;
    for number in 0..1_000u32 {
        if count.well == 0 {
            count = count_under(alloc, files, failing(is_stopped, number), count)?;
        }
    }
    Ok(count)
}

/// How many cases came to each end.
fn count_text(alloc: Global, is_stopped: bool) -> Result<String, AllocError> {
    match whole_files(alloc)? {
        Some(files) => {
            let count = count_all(alloc, &files, is_stopped)?;
            format!(in alloc;
                "ended well {}, disk failed {}, not said {}, other {}",
                count.well, count.disk, count.say, count.other
            )
        }
        None => String::from_str(alloc, "no files"),
    }
}

/// The device stops behind each number of calls, and a crash follows.
pub(crate) fn stops(alloc: Global) -> Result<String, AllocError> {
    count_text(alloc, true)
}

/// Each device call fails, and a crash follows.
pub(crate) fn failures(alloc: Global) -> Result<String, AllocError> {
    count_text(alloc, false)
}
