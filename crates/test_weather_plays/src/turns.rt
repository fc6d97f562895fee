// Whose turn it was in a call of a fleet.
use crate::books::Books;
use crate::calls::Run;
use crate::looks::Look;
use crate::replay::Replay;
use crate::said::Said;
use flow_core_plans::moment_of;
use run_records::Record;
use std::alloc::{AllocError, Global};

/// The runs of a call as they stood before a line, by place.
struct Turns {
    runs: Vec<Replay>,
    /// The place from which the next move is looked for.
    turn: usize,
    /// The moment of the last line, in milliseconds.
    now: u64,
    /// Whether a record came that is no Begin.
    is_under_way: bool,
}

// (by hand, and not by derive: so a drop is one call in the proofs of all who own one)
impl Drop for Turns {
    fn drop(self) {
        let Self {
            runs: _,
            turn: _,
            now: _,
            is_under_way: _,
        } = self;
    }
}

/// The place that is so far behind another one, once around the circle of so many.
fn around(turn: usize, back: usize, count: usize) -> usize {
    let place = turn.saturating_add(back);
    if place < count {
        return place;
    }
    place.saturating_sub(count)
}

impl Turns {
    /// No run.
    fn new(alloc: Global) -> Turns {
        Turns {
            runs: Vec::new(alloc),
            turn: 0,
            now: 0,
            is_under_way: false,
        }
    }

    /// Adds a run as it stood after so many of its records; false where they are no run.
    fn add(
        &mut self,
        alloc: Global,
        books: &Books,
        run: Run,
        records: &[Record],
        count: u32,
    ) -> Result<bool, AllocError> {
        let Some(setup) = books.setup(run.book)? else {
            return Ok(false);
        };
        let mut replay = Replay::idle(alloc, setup, run.number);
        let is_run = replay.take_first(records, count)?;
        self.runs.push(replay)?;
        Ok(is_run)
    }

    /// Adds the runs as a call found them; false where their records are no runs.
    fn add_all(
        &mut self,
        alloc: Global,
        books: &Books,
        runs: &[Run],
        look: &Look,
        had: &[u32],
    ) -> Result<bool, AllocError> {
        for place in 0..runs.len() {
            let (Some(records), Some(count)) = (look.records.get(place), had.get(place)) else {
                return Ok(false);
            };
            if !self.add(alloc, books, runs[place], records.as_slice(), *count)? {
                return Ok(false);
            }
        }
        Ok(true)
    }

    /// Whether the run at a place has a move at a moment.
    fn has_move(&self, place: usize, moment: u64) -> bool {
        match self.runs.get(place) {
            Some(replay) => replay.has_move(moment),
            None => false,
        }
    }

    /// The first place, around the circle from the turn on, whose run has a move at a moment.
    fn first_move(&self, moment: u64) -> Option<usize> {
        let count = self.runs.len();
        for back in 0..count {
            let place = around(self.turn, back, count);
            if self.has_move(place, moment) {
                return Some(place);
            }
        }
        None
    }

    /// The first place with an issue that is overdue at a moment, and the least such issue there.
    fn first_overdue(&self, moment: u64) -> Option<(usize, u32)> {
        for place in 0..self.runs.len() {
            if let Some(issue) = self.runs[place].overdue(moment) {
                return Some((place, issue));
            }
        }
        None
    }

    /// Whether this issue of the run at a place is the one to expire at a moment.
    fn is_to_expire(&self, place: usize, issue: u32, moment: u64) -> bool {
        match self.first_overdue(moment) {
            Some((first, least)) => first == place && least == issue,
            None => false,
        }
    }

    /// Whether each run before a place has begun.
    fn have_begun_before(&self, place: usize) -> bool {
        for other in 0..self.runs.len() {
            if other < place && self.runs[other].count() == 0 {
                return false;
            }
        }
        true
    }

    /// Whether a record of the run at a place may come now.
    fn may_come(&self, place: usize, record: &Record) -> bool {
        let moment = moment_of(record);
        if moment < self.now {
            return false;
        }
        match record {
            Record::Begin { .. } => !self.is_under_way && self.have_begun_before(place),
            Record::Reply { .. } => true,
            Record::Expire { issue, .. } => {
                self.first_move(moment).is_none() && self.is_to_expire(place, *issue, moment)
            }
            Record::Told { .. } => false,
            _ => self.first_move(moment) == Some(place),
        }
    }

    /// Goes on behind a record of the run at a place; false where it may not come now.
    fn take(&mut self, place: usize, record: &Record) -> Result<bool, AllocError> {
        if !self.may_come(place, record) {
            return Ok(false);
        }
        self.now = moment_of(record);
        match record {
            Record::Begin { .. } => {}
            Record::Reply { .. } | Record::Expire { .. } => self.is_under_way = true,
            _ => {
                self.is_under_way = true;
                self.turn = around(place, 1, self.runs.len());
            }
        }
        match self.runs.get_mut(place) {
            Some(replay) => replay.take(record),
            None => Ok(false),
        }
    }

    /// Goes on behind the records of these lines; false where one of them may not come then.
    fn take_all(&mut self, look: &Look, said: &[Said]) -> Result<bool, AllocError> {
        for one in said {
            let Some(record) = look.record(one.place, one.number) else {
                return Ok(false);
            };
            if !self.take(one.place, record)? {
                return Ok(false);
            }
        }
        Ok(true)
    }
}

/// Whether the records of a call of these runs came in the order of turns: Begins by place, each move at the first place that had one, around
/// the circle, each Expire where no run had a move, and at the first place with an issue that was overdue.
pub(crate) fn came_in_turn(
    alloc: Global,
    books: &Books,
    runs: &[Run],
    look: &Look,
    had: &[u32],
    said: &[Said],
) -> Result<bool, AllocError> {
    let mut turns = Turns::new(alloc);
    if !turns.add_all(alloc, books, runs, look, had)? {
        return Ok(false);
    }
    turns.take_all(look, said)
}
