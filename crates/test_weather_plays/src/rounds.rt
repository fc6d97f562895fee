// A fleet from its first call to its end.
use crate::acts::{all_agree, are_single};
use crate::books::Books;
use crate::calls::{Came, Run, call};
use crate::closes::{Asked, fits, is_last, unsaid_most, wants_memory};
use crate::counts::{Counts, add};
use crate::draw::Draw;
use crate::looks::Look;
use crate::parcels::are_kept;
use crate::plans::{Drawn, LATE, drawn_plan, fair_plan};
use crate::said::{Said, add_all_said, unsaid};
use crate::turns::came_in_turn;
use cacao_site_memory::MemorySite;
use flow_fleet::FleetClose;
use std::alloc::{AllocError, Global};

/// More records than a fleet has.
const MANY: u64 = 1_000_000_000;

/// What was found to be wrong behind a call.
#[derive(Clone, Copy, PartialEq, Eq)]
pub enum Found {
    /// A playbook is not accepted.
    NoRuns,
    /// A file is damaged, or an engine refuses its journal.
    Files,
    /// The files of a run don't agree.
    Audit,
    /// Two acts are on one command.
    Acts,
    /// A parcel was put that is no kept Send's command and no kept act's reply.
    Parcels,
    /// A line was said that is not that of its record, behind its run's number.
    Lines,
    /// The lines of a call are not those of the records that it appended.
    Said,
    /// A record came out of turn.
    Turns,
    /// What came of the call does not fit the files.
    Close,
    /// An issue expired though no parcel met a mishap.
    Expired,
    /// The last call, which nothing disturbed, did not come to the end.
    End,
}

/// A fleet that is played.
struct Round<'a> {
    alloc: Global,
    books: &'a Books,
    draw: Draw,
    runs: Vec<Run>,
    /// How many records each run has, by place.
    had: Vec<u32>,
    /// How many acts there are, how many issues expired, and how many parcels met a mishap.
    acts: u64,
    expired: u64,
    mishaps: u64,
}

// (by hand, and not by derive: so a drop is one call in the proofs of all who own one)
impl Drop for Round<'_> {
    fn drop(self) {
        let Self {
            alloc: _,
            books: _,
            draw: _,
            runs: _,
            had: _,
            acts: _,
            expired: _,
            mishaps: _,
        } = self;
    }
}

/// Two to five runs with numbers of their own, of playbooks that are drawn.
fn drawn_runs(alloc: Global, books: &Books, draw: &mut Draw) -> Result<Vec<Run>, AllocError> {
    let mut runs = Vec::new(alloc);
    let count = draw.below(4).saturating_add(2);
    let step = draw.below(9).saturating_add(1);
    let mut number = draw.below(100);
    if draw.is_one_of(8) {
        number = u64::MAX.wrapping_sub(number);
    }
    for _ in 0..count {
        let book = draw.below(books.count() as u64) as usize;
        runs.push(Run { number, book })?;
        number = number.wrapping_add(step);
    }
    Ok(runs)
}

/// How many records these journals have.
fn all_records(had: &[u32]) -> u64 {
    let mut count = 0u64;
    for one in had {
        add(&mut count, u64::from(*one));
    }
    count
}

/// What is asked of a call.
#[derive(Clone, Copy)]
struct Ask {
    /// The first runs, so many of them.
    many: usize,
    most: u64,
    stop_clock: u64,
    may_fail: bool,
}

/// A call that was made: what was asked of it, how many lines had been said before, and what came of it.
#[derive(Clone, Copy)]
struct Made {
    ask: Ask,
    lines: usize,
    came: Came,
}

/// Counts a call.
fn count_call(counts: &mut Counts, came: Came) {
    add(&mut counts.calls, 1);
    if wants_memory(came) {
        add(&mut counts.memory, 1);
    }
    match came {
        Came::Refused(_) => add(&mut counts.refused, 1),
        Came::Closed(FleetClose::Paused) => add(&mut counts.cut, 1),
        Came::Closed(FleetClose::Waiting { .. }) => add(&mut counts.cut, 1),
        Came::Closed(FleetClose::Asked { .. }) => add(&mut counts.asked, 1),
        _ => {}
    }
}

impl<'a> Round<'a> {
    /// A fleet that is drawn by chance.
    fn new(alloc: Global, books: &'a Books, seed: u64) -> Result<Round<'a>, AllocError> {
        let mut draw = Draw::new(seed);
        let runs = drawn_runs(alloc, books, &mut draw)?;
        let had = vec![in alloc; 0u32; runs.len()]?;
        Ok(Round {
            alloc,
            books,
            draw,
            runs,
            had,
            acts: 0,
            expired: 0,
            mishaps: 0,
        })
    }

    /// The first runs, so many of them.
    fn first(&self, many: usize) -> &[Run] {
        match self.runs.as_slice().get(..many) {
            Some(runs) => runs,
            None => self.runs.as_slice(),
        }
    }

    /// Makes a call.
    fn make(&mut self, site: &mut MemorySite, ask: Ask) -> Result<Made, AllocError> {
        let lines = site.line_count();
        let came = call(self.alloc, self.books, self.first(ask.many), site, ask.most)?;
        add(&mut self.mishaps, site.mishaps());
        Ok(Made { ask, lines, came })
    }

    /// What is wrong with the files and the parcels that a call left; nothing where all is well.
    fn wrong_files(&self, look: &Look, site: &MemorySite) -> Result<Option<Found>, AllocError> {
        if !all_agree(self.alloc, look)? {
            return Ok(Some(Found::Audit));
        }
        if !are_single(look.acts.as_slice()) {
            return Ok(Some(Found::Acts));
        }
        if !are_kept(look, self.runs.as_slice(), site) {
            return Ok(Some(Found::Parcels));
        }
        if self.mishaps == 0 && look.expired() > 0 {
            return Ok(Some(Found::Expired));
        }
        Ok(None)
    }

    /// What is wrong with how a call ended; nothing where all is well.
    fn wrong_close(&self, look: &Look, made: Made) -> Option<Found> {
        let before = all_records(self.had.as_slice());
        let asked = Asked {
            most: made.ask.most,
            stop_clock: made.ask.stop_clock,
            may_fail: made.ask.may_fail,
            appended: look.all_records().saturating_sub(before),
        };
        if fits(made.came, look, self.first(made.ask.many), asked) {
            return None;
        }
        Some(Found::Close)
    }

    /// What is wrong with these lines of a call, or with how it ended; nothing where all is well.
    fn wrong_lines(
        &self,
        look: &Look,
        made: Made,
        said: &[Said],
    ) -> Result<Option<Found>, AllocError> {
        match unsaid(look, self.had.as_slice(), said) {
            Some(unsaid) if unsaid <= unsaid_most(made.came) => {}
            _ => return Ok(Some(Found::Said)),
        }
        let runs = self.first(made.ask.many);
        let had = self.had.as_slice();
        if !came_in_turn(self.alloc, self.books, runs, look, had, said)? {
            return Ok(Some(Found::Turns));
        }
        Ok(self.wrong_close(look, made))
    }

    /// What is wrong with the lines and the end of a call; nothing where all is well.
    fn wrong_call(
        &self,
        look: &Look,
        site: &MemorySite,
        made: Made,
    ) -> Result<Option<Found>, AllocError> {
        let mut all = Vec::new(self.alloc);
        if !add_all_said(&mut all, look, self.runs.as_slice(), site)? {
            return Ok(Some(Found::Lines));
        }
        match all.as_slice().get(made.lines..) {
            Some(said) => self.wrong_lines(look, made, said),
            None => Ok(Some(Found::Lines)),
        }
    }

    /// Keeps what the files hold behind a call.
    fn keep(&mut self, look: &Look) -> Result<(), AllocError> {
        self.acts = look.acts.len() as u64;
        self.expired = look.expired();
        self.had = look.counts(self.alloc)?;
        Ok(())
    }

    /// What is wrong behind a call that left this; nothing where all is well.
    fn wrong_in(
        &mut self,
        look: &Look,
        site: &MemorySite,
        made: Made,
    ) -> Result<Option<Found>, AllocError> {
        let mut found = self.wrong_files(look, site)?;
        if found.is_none() {
            found = self.wrong_call(look, site, made)?;
        }
        self.keep(look)?;
        Ok(found)
    }

    /// What is wrong behind a call; nothing where all is well.
    fn wrong(&mut self, site: &mut MemorySite, made: Made) -> Result<Option<Found>, AllocError> {
        if let Came::NoRuns = made.came {
            return Ok(Some(Found::NoRuns));
        }
        let mut look = Look::new(self.alloc);
        if !look.add_all(self.alloc, self.books, self.runs.as_slice(), site)? {
            return Ok(Some(Found::Files));
        }
        self.wrong_in(&look, site, made)
    }

    /// What is asked of a call that may be cut short.
    fn drawn_ask(&mut self, stop_clock: u64, may_fail: bool) -> Ask {
        let all = self.runs.len();
        let many = self.draw.below(all as u64).saturating_add(1) as usize;
        let is_whole = self.draw.is_one_of(2);
        let is_short = self.draw.is_one_of(4);
        let most = self.draw.below(30).saturating_add(1);
        Ask {
            many: if is_whole { all } else { many },
            most: if is_short { most } else { MANY },
            stop_clock,
            may_fail,
        }
    }

    /// What a crash leaves: what a read gives, what was synced, or something between.
    fn drawn_choice(&mut self) -> u64 {
        match self.draw.below(3) {
            0 => 0,
            1 => 1,
            _ => self.draw.below(1_000),
        }
    }

    /// Makes a call on a rack that is drawn, from what this one left; a crash follows.
    fn play_one(
        &mut self,
        site: MemorySite,
        counts: &mut Counts,
    ) -> Result<(MemorySite, Option<Found>), AllocError> {
        let Drawn { plan, may_fail } = drawn_plan(self.alloc, &mut self.draw)?;
        let ask = self.drawn_ask(plan.stop_clock, may_fail);
        let mut site = site.crash_with(0, plan)?;
        let made = self.make(&mut site, ask)?;
        count_call(counts, made.came);
        let choice = self.drawn_choice();
        let mut site = site.crash_with(choice, fair_plan(self.alloc))?;
        let found = self.wrong(&mut site, made)?;
        Ok((site, found))
    }

    /// Makes a call of all runs where nothing fails but requests for memory: what is wrong behind it, and whether it was refused memory.
    fn play_fair(
        &mut self,
        site: &mut MemorySite,
        counts: &mut Counts,
    ) -> Result<(Option<Found>, bool), AllocError> {
        let ask = Ask {
            many: self.runs.len(),
            most: MANY,
            stop_clock: LATE,
            may_fail: false,
        };
        let made = self.make(site, ask)?;
        count_call(counts, made.came);
        let found = self.wrong(site, made)?;
        let is_refused = wants_memory(made.came);
        if found.is_none() && !is_refused && !is_last(made.came) {
            return Ok((Some(Found::End), false));
        }
        Ok((found, is_refused))
    }

    /// Makes such calls, up to one that was not refused memory: one, where there is ample memory.
    fn play_last(
        &mut self,
        site: &mut MemorySite,
        counts: &mut Counts,
    ) -> Result<Option<Found>, AllocError> {
        for _ in 0..3u32 {
            let (found, is_refused) = self.play_fair(site, counts)?;
            if found.is_some() || !is_refused {
                return Ok(found);
            }
        }
        Ok(Some(Found::End))
    }

    /// Makes up to three calls that are disturbed, and then one that nothing disturbs.
    fn play_all(&mut self, counts: &mut Counts) -> Result<Option<Found>, AllocError> {
        let mut site = MemorySite::new(self.alloc, fair_plan(self.alloc))?;
        for _ in 0..self.draw.below(4) {
            let (next, found) = self.play_one(site, counts)?;
            if found.is_some() {
                return Ok(found);
            }
            site = next;
        }
        self.play_last(&mut site, counts)
    }
}

/// Plays the fleet that a seed draws, and counts it: what is wrong behind its first call that left something wrong.
pub fn play(
    alloc: Global,
    books: &Books,
    seed: u64,
    counts: &mut Counts,
) -> Result<Option<Found>, AllocError> {
    let mut round = Round::new(alloc, books, seed)?;
    let found = round.play_all(counts)?;
    add(&mut counts.fleets, 1);
    add(&mut counts.runs, round.runs.len() as u64);
    add(&mut counts.records, all_records(round.had.as_slice()));
    add(&mut counts.acts, round.acts);
    add(&mut counts.expired, round.expired);
    add(&mut counts.mishaps, round.mishaps);
    Ok(found)
}
