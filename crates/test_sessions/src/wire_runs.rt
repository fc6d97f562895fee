// A run, what became of both ends at it, and whether that was right.
use oc2_wire::{WireClose, WireError};
use std::alloc::{AllocError, Global};
use test_wire_plays::{
    Answering, Arounds, Asked, Asking, Came, Kept, Served, Verdict, are_of, calm, judge, play_both,
};

/// A run, and the files that it leaves in one process where nothing is in its way, with their numbers of records and acts.
#[derive(Drop)]
pub(crate) struct Run<'a> {
    pub(crate) asked: Asked<'a>,
    pub(crate) all: Kept,
    records: u32,
    acts: u32,
}

/// How an end ended.
#[derive(Clone, Copy, PartialEq, Eq)]
pub(crate) enum Found {
    /// The run has ended well, and no issue expired; or the other end closed.
    Ended,
    /// It has ended well, and an issue expired.
    Expired,
    Waiting,
    Disk,
    Say,
    Else,
}

/// How often which end was found, where all was right behind it.
#[derive(Clone, Copy)]
pub(crate) struct Counts {
    pub(crate) ended: u32,
    expired: u32,
    waiting: u32,
    disk: u32,
    say: u32,
    other: u32,
}

/// No end.
pub(crate) const NONE: Counts = Counts {
    ended: 0,
    expired: 0,
    waiting: 0,
    disk: 0,
    say: 0,
    other: 0,
};

impl Counts {
    /// Counts an end.
    pub(crate) fn add(&mut self, found: Found) {
        match found {
            Found::Ended => self.ended = self.ended.saturating_add(1),
            Found::Expired => self.expired = self.expired.saturating_add(1),
            Found::Waiting => self.waiting = self.waiting.saturating_add(1),
            Found::Disk => self.disk = self.disk.saturating_add(1),
            Found::Say => self.say = self.say.saturating_add(1),
            Found::Else => self.other = self.other.saturating_add(1),
        }
    }

    /// The counts as text; those of a link that was cut, or of a device that stopped.
    pub(crate) fn text(&self, alloc: Global) -> Result<String, AllocError> {
        let ends = format!(in alloc;
            "ended {}, expired {}, waiting {}",
            self.ended, self.expired, self.waiting
        )?;
        format!(in alloc;
            "{ends}, disk failed {}, not said {}, other {}",
            self.disk, self.say, self.other
        )
    }
}

/// The run that is asked for, where a session in one process leaves files that agree.
pub(crate) fn run_of<'a>(
    alloc: Global,
    asked: Asked<'a>,
    all: Kept,
) -> Result<Option<Run<'a>>, AllocError> {
    match judge(alloc, &all, &all)? {
        Verdict::Agree { records, acts } => Ok(Some(Run {
            asked,
            all,
            records,
            acts,
        })),
        _ => Ok(None),
    }
}

/// Whether a word stands among words with a space between two.
fn has_word(words: &str, wanted: &str) -> bool {
    for word in words.split(' ') {
        if word == wanted {
            return true;
        }
    }
    false
}

/// How the engine's end ended.
pub(crate) fn asked_end(asking: &Asking) -> Found {
    match asking.came {
        Came::Closed(WireClose::Ended { well: true }) => {
            if has_word(asking.said.as_str(), "expire") {
                Found::Expired
            } else {
                Found::Ended
            }
        }
        Came::Closed(WireClose::Waiting { .. }) => Found::Waiting,
        Came::Refused(WireError::Disk) => Found::Disk,
        Came::Refused(WireError::Say) => Found::Say,
        _ => Found::Else,
    }
}

/// How the end of the filters ended.
pub(crate) fn answered_end(answering: &Answering) -> Found {
    match answering.served {
        Served::Acted(_) => Found::Ended,
        Served::Refused(WireError::Disk) => Found::Disk,
        _ => Found::Else,
    }
}

impl Run<'_> {
    /// Whether the files of both ends agree.
    pub(crate) fn agrees(
        &self,
        alloc: Global,
        engine: &Kept,
        filters: &Kept,
    ) -> Result<bool, AllocError> {
        match judge(alloc, engine, filters)? {
            Verdict::Agree { acts, .. } => Ok(acts <= self.acts),
            _ => Ok(false),
        }
    }

    /// Whether both ends have the run's end, with all its records, and agree.
    fn is_at_its_end(
        &self,
        alloc: Global,
        engine: &Kept,
        filters: &Kept,
    ) -> Result<bool, AllocError> {
        match judge(alloc, engine, filters)? {
            Verdict::Agree { records, acts } => Ok(records == self.records && acts <= self.acts),
            _ => Ok(false),
        }
    }

    /// Whether the files of both ends agree, and both, opened again on them with nothing in their way, come to the run's end: all its
    /// records, and each command acted on at most once. Where the files of a session in one process are wanted, they leave these.
    pub(crate) fn goes_on(
        &self,
        alloc: Global,
        engine: &Kept,
        filters: &Kept,
        as_alone: bool,
    ) -> Result<bool, AllocError> {
        if !self.agrees(alloc, engine, filters)? {
            return Ok(false);
        }
        let arounds = Arounds {
            engine: calm(),
            filters: calm(),
        };
        let last = play_both(alloc, arounds, engine, filters, self.asked)?;
        let found = asked_end(&last.engine);
        if !last.is_settled || !matches!(found, Found::Ended | Found::Expired) {
            return Ok(false);
        }
        if as_alone && !are_of(&last.engine.kept, &last.filters.kept, &self.all) {
            return Ok(false);
        }
        self.is_at_its_end(alloc, &last.engine.kept, &last.filters.kept)
    }
}
