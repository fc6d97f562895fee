// Device calls of a fleet that fail, devices that stop, and crashes behind them.
use flow_fleet::{FleetClose, FleetError};
use std::alloc::{AllocError, Global};
use test_session_plays::{Book, FleetCame, Outside, Play, Run, fair};

/// Two runs of one playbook.
const RUNS: [Run; 2] = [
    Run {
        number: 7,
        book: Book::Block,
    },
    Run {
        number: 8,
        book: Book::Block,
    },
];

/// What came of a fleet.
#[derive(Clone, Copy)]
enum End {
    /// Both runs have ended well.
    Well,
    /// The disk failed.
    Disk,
    /// A line could not be said.
    Say,
    Else,
}

/// How many first fleets came to each end, where the second one ended well with nine records of each run and two acts, and how many cases
/// there were beside them.
#[derive(Clone, Copy)]
struct Count {
    well: u32,
    disk: u32,
    say: u32,
    other: u32,
}

impl Count {
    /// Counts a case.
    fn add(&mut self, end: End) {
        match end {
            End::Well => self.well = self.well.saturating_add(1),
            End::Disk => self.disk = self.disk.saturating_add(1),
            End::Say => self.say = self.say.saturating_add(1),
            End::Else => self.other = self.other.saturating_add(1),
        }
    }
}

/// The end that a fleet came to.
fn end_of(came: FleetCame) -> End {
    match came {
        FleetCame::Closed(FleetClose::Ended { failed: None }) => End::Well,
        FleetCame::Refused(FleetError::Disk) => End::Disk,
        FleetCame::Refused(FleetError::Say) => End::Say,
        _ => End::Else,
    }
}

/// How many bytes the journals of both runs have; nothing where they can't be told.
fn sizes(play: &mut Play) -> Option<(usize, u64)> {
    let first = play.file(0)?.len();
    let second = play.run_size(1)?;
    Some((first, second))
}

/// Whether the filters have so many acts and rules.
fn holds(play: &mut Play, acts: u32, rules: usize) -> bool {
    match play.held() {
        Some(held) => held.acts == acts && held.rules == rules,
        None => false,
    }
}

/// Whether a fleet ends well here, with these sizes of the journals and two acts.
fn ends_whole(play: &mut Play, whole: (usize, u64)) -> bool {
    match end_of(play.fleet(&RUNS, 1_000_000_000)) {
        End::Well => match sizes(play) {
            Some(found) => found.0 == whole.0 && found.1 == whole.1 && holds(play, 2, 2),
            None => false,
        },
        _ => false,
    }
}

/// The end of a fleet here, where one behind a crash that is picked so ends well with these sizes and two acts.
fn end_under(
    alloc: Global,
    whole: (usize, u64),
    outside: Outside,
    choice: u64,
) -> Result<End, AllocError> {
    let mut play = Play::new(alloc, outside)?;
    let end = end_of(play.fleet(&RUNS, 1_000_000_000));
    let mut play = play.crash(choice, fair())?;
    if ends_whole(&mut play, whole) {
        Ok(end)
    } else {
        Ok(End::Else)
    }
}

/// Counts the cases of two crashes: what a read gives, and what was synced.
fn count_under(
    alloc: Global,
    whole: (usize, u64),
    outside: Outside,
    count: Count,
) -> Result<Count, AllocError> {
    let mut count = count;
    for choice in 0..2u64 {
        count.add(end_under(alloc, whole, outside, choice)?);
    }
    Ok(count)
}

/// What is outside where the device fails at a number: it stops behind so many calls, or the call of that number fails.
fn failing(is_stopped: bool, number: u32) -> Outside {
    if is_stopped {
        Outside {
            calls: number,
            ..fair()
        }
    } else {
        Outside {
            failing: Some(number),
            ..fair()
        }
    }
}

/// Counts the cases of each number, up to the first in which a fleet ends well.
fn count_all(alloc: Global, whole: (usize, u64), is_stopped: bool) -> Result<Count, AllocError> {
    let mut count = Count {
        well: 0,
        disk: 0,
        say: 0,
        other: 0,
    };
    for number in 0..1_000u32 {
        if count.well == 0 {
            count = count_under(alloc, whole, failing(is_stopped, number), count)?;
        }
    }
    Ok(count)
}

/// The sizes of the journals behind a whole fleet; nothing where they can't be told.
fn whole_sizes(alloc: Global) -> Result<Option<(usize, u64)>, AllocError> {
    let mut play = Play::new(alloc, fair())?;
    play.fleet(&RUNS, 1_000_000_000);
    Ok(sizes(&mut play))
}

/// How many cases came to each end.
fn count_text(alloc: Global, is_stopped: bool) -> Result<String, AllocError> {
    match whole_sizes(alloc)? {
        Some(whole) => {
            let count = count_all(alloc, whole, is_stopped)?;
            format!(in alloc;
                "ended well {}, disk failed {}, not said {}, other {}",
                count.well, count.disk, count.say, count.other
            )
        }
        None => String::from_str(alloc, "no files"),
    }
}

/// The device stops behind each number of calls, and a crash follows.
pub(crate) fn stops(alloc: Global) -> Result<String, AllocError> {
    count_text(alloc, true)
}

/// Each device call fails, and a crash follows.
pub(crate) fn failures(alloc: Global) -> Result<String, AllocError> {
    count_text(alloc, false)
}
