// A session between its calls.
ghost use Rattle.std.specs.Prelude.{◌≡◌, ◌≢◌, ◌+◌, ◌<◌, ◌≤◌, ℕ, List, [], length, Some, None, true, false, Ok, OnOk};
ghost use Rattle.base_dues.specs.Pairs.{IsFirstBy};
ghost use Rattle.run_records.specs.Ranges.{last_moment};
ghost use Rattle.flow_core_rules.specs.Changes.{outcome};
ghost use Rattle.flow_core_rules.specs.Moves.{enabled_move};
ghost use Rattle.flow_engine_answers.specs.declared.answers.OperatorAnswer.{OperatorAnswer};
ghost use Rattle.flow_world_steps.specs.EngineCalls.{put_deadline};
ghost use Rattle.flow_world_steps.specs.OpenIssues.{IsNextPut};
ghost use Rattle.flow_world_steps.specs.Sides.{AllPut, FiltersReady, IsWhole};
ghost use Rattle.flow_world_steps.specs.Steps.{IsAddressed};
ghost use Rattle.flow_world_steps.specs.Turns.{ComesNext, IsIdle, IsOnTime, IsUntold, most_ignored};
ghost use Rattle.flow_world_steps.specs.Worlds.{holds, looked, rests};
ghost use Rattle.flow_world_parts.specs.Dues.{IsToUpgrade};
ghost use Rattle.flow_world_parts.specs.Leads.{Did, Ended, IsBetweenTurns, IsLeastTold, IsWorking, Turned, WhereLooked};
ghost use Rattle.flow_world_parts.specs.Used.{used};

use crate::clock::reach;
use crate::close::Close;
use crate::due::{Due, first_due};
use crate::engine_side::{begin, put_waiting, take_reply};
use crate::error::WorldError;
use crate::filters::Filters;
use crate::moves::{expire, make_move, resend, tell, upgrade};
use cacao_site::{Parcel, Site};
use flow_engine_answers::Answers;
use flow_world_steps::{Engine, LimitKind, accepted_is_runnable};
use run_records::LAST_MOMENT;

/// The most parcels of a session, or of a fleet, that change no journal.
pub const MOST_IGNORED: u32 = 1_000_000;

/// The most bytes of a parcel that is handed on.
const MOST_BYTES: usize = 1_048_576;

/// The engine and the filters of a session whose files are open, and what is left of its bounds.
pub struct Session {
    pub engine: Engine,
    pub filters: Filters,
    /// The present moment, in milliseconds.
    pub now: u64,
    /// How many records more may be appended.
    pub left: u64,
    /// How many parcels changed neither journal.
    pub ignored: u32,
}

// (by hand, and not by derive: so a drop is one call in the proofs of all who own one)
impl Drop for Session {
    fn drop(self) {
        let Self {
            engine: _,
            filters: _,
            now: _,
            left: _,
            ignored: _,
        } = self;
    }
}

/// Whether a parcel is for an agent 1 to 16, and has at most 1,048,576 bytes.
pub fn is_addressed(parcel: &Parcel) -> bool
    ensures yes { result ≡ true → IsAddressed parcel.now }
    ensures no { result ≡ false → IsAddressed parcel.now → ⊥ }
{
    1 <= parcel.agent && parcel.agent <= 16 && parcel.bytes.as_slice().len() <= MOST_BYTES
}

impl Session {
    /// A parcel is dropped that is for no agent, or has too many bytes, or is a command for an agent whose filter is not here.
    fn drop_parcel(&mut self)
        requires calm { self.old.ignored + 1 ≤ most_ignored }
        ensures is { self.new ≡ record self.old { ignored = self.old.ignored + 1 } }
    {
        self.ignored += 1;
    }

    /// A reply in hand goes to the engine.
    fn hand_reply<S: Site>(&mut self, site: &mut S, parcel: &Parcel) -> Result<(), WorldError>
        requires works { IsWorking self.old (S.view site.old) }
        requires calm { self.old.ignored + 1 ≤ most_ignored }
        requires some { 1 ≤ self.old.left }
        requires put { AllPut self.old.engine }
        requires addressed { IsAddressed parcel.now }
        requires back { parcel.now.back ≡ true }
        ensures did { (answers : List OperatorAnswer) (beat : ℕ)
            → Did result answers (S.view site.old) self.old (holds beat parcel.now) (S.view site.new) self.new }
        ensures works { OnOk result (IsWorking self.new (S.view site.new)) }
        ensures put { OnOk result (AllPut self.new.engine) }
        ensures few { OnOk result (self.new.ignored ≤ self.old.ignored + 1) }
    {
        match take_reply(&mut self.engine, site, parcel, self.now) {
            Ok(true) => {
                self.left -= 1;
                Ok(())
            }
            Ok(false) => {
                self.ignored += 1;
                Ok(())
            }
            Err(error) => Err(error),
        }
    }

    /// A command in hand goes to its filter.
    fn hand_command<S: Site>(&mut self, site: &mut S, parcel: &Parcel) -> Result<(), WorldError>
        requires works { IsWorking self.old (S.view site.old) }
        requires here { parcel.now.agent ≤ length self.old.filters }
        requires calm { self.old.ignored + 1 ≤ most_ignored }
        requires put { AllPut self.old.engine }
        requires addressed { IsAddressed parcel.now }
        requires command { parcel.now.back ≡ false }
        ensures did { (answers : List OperatorAnswer) (beat : ℕ)
            → Did result answers (S.view site.old) self.old (holds beat parcel.now) (S.view site.new) self.new }
        ensures works { OnOk result (IsWorking self.new (S.view site.new)) }
        ensures put { OnOk result (AllPut self.new.engine) }
        ensures few { OnOk result (self.new.ignored ≤ self.old.ignored + 1) }
    {
        match self.filters.hand(site, parcel, self.now) {
            Ok(true) => Ok(()),
            Ok(false) => {
                self.ignored += 1;
                Ok(())
            }
            Err(error) => Err(error),
        }
    }

    /// A parcel in hand goes to the engine or to its filter, or is dropped.
    fn hand_on<S: Site>(&mut self, site: &mut S, parcel: &Parcel) -> Result<(), WorldError>
        requires works { IsWorking self.old (S.view site.old) }
        requires calm { self.old.ignored + 1 ≤ most_ignored }
        requires some { 1 ≤ self.old.left }
        requires put { AllPut self.old.engine }
        ensures did { (answers : List OperatorAnswer) (beat : ℕ)
            → Did result answers (S.view site.old) self.old (holds beat parcel.now) (S.view site.new) self.new }
        ensures works { OnOk result (IsWorking self.new (S.view site.new)) }
        ensures put { OnOk result (AllPut self.new.engine) }
        ensures few { OnOk result (self.new.ignored ≤ self.old.ignored + 1) }
    {
        if !is_addressed(parcel) {
            self.drop_parcel();
            return Ok(());
        }
        if parcel.back {
            return self.hand_reply(site, parcel);
        }
        if !self.filters.has(parcel.agent) {
            self.drop_parcel();
            return Ok(());
        }
        self.hand_command(site, parcel)
    }

    /// Hands on a parcel that was taken; the session closes right behind the 1,000,000th that changed neither journal.
    fn deliver<S: Site>(
        &mut self,
        site: &mut S,
        parcel: &Parcel,
    ) -> Result<Option<Close>, WorldError>
        requires works { IsWorking self.old (S.view site.old) }
        requires calm { self.old.ignored + 1 ≤ most_ignored }
        requires some { 1 ≤ self.old.left }
        requires put { AllPut self.old.engine }
        ensures turned { (answers : List OperatorAnswer) (beat : ℕ)
            → Turned result answers (S.view site.old) self.old (holds beat parcel.now) (S.view site.new) self.new }
        ensures between { result ≡ Ok None → IsBetweenTurns self.new (S.view site.new) }
    {
        match self.hand_on(site, parcel) {
            Ok(()) => {
                if self.ignored >= MOST_IGNORED {
                    return Ok(Some(Close::Flooded));
                }
                Ok(None)
            }
            Err(error) => Err(error),
        }
    }

    /// Appends the record of the enabled move, and puts the command that it sends.
    fn make_move<S: Site>(&mut self, site: &mut S) -> Result<Option<Close>, WorldError>
        requires between { IsBetweenTurns self.old (S.view site.old) }
        requires some { 1 ≤ self.old.left }
        requires moves { enabled_move self.old.engine.history.seen self.old.now ≢ None }
        ensures turned { (answers : List OperatorAnswer)
            → Turned result answers (S.view site.old) self.old looked (S.view site.new) self.new }
        ensures between { result ≡ Ok None → IsBetweenTurns self.new (S.view site.new) }
    {
        match make_move(&mut self.engine, site, self.now) {
            Ok(()) => {
                self.left -= 1;
                Ok(None)
            }
            Err(error) => Err(error),
        }
    }

    /// Appends the Upgrade of the run.
    fn upgrade<S: Site>(&mut self, site: &mut S) -> Result<Option<Close>, WorldError>
        requires between { IsBetweenTurns self.old (S.view site.old) }
        requires some { 1 ≤ self.old.left }
        requires goes_on { outcome self.old.engine.history.seen.lists ≡ None }
        requires earlier { self.old.engine.history.seen.lists.is_upgraded ≡ false }
        ensures turned { (answers : List OperatorAnswer) → WhereLooked IsToUpgrade answers (S.view site.old) self.old.engine
            → Turned result answers (S.view site.old) self.old looked (S.view site.new) self.new }
        ensures between { result ≡ Ok None → IsBetweenTurns self.new (S.view site.new) }
    {
        match upgrade(&mut self.engine, site, self.now) {
            Ok(()) => {
                self.left -= 1;
                Ok(None)
            }
            Err(error) => Err(error),
        }
    }

    /// Appends what an operator told of the least issue that waits and has an answer.
    fn tell<S: Site>(
        &mut self,
        site: &mut S,
        answers: &Answers,
        issue: u32,
    ) -> Result<Option<Close>, WorldError>
        requires between { IsBetweenTurns self.old (S.view site.old) }
        requires some { 1 ≤ self.old.left }
        requires idle { WhereLooked IsIdle answers.now (S.view site.old) self.old.engine }
        requires least { IsLeastTold self.old.engine answers.now (Some issue) }
        requires upgraded { self.old.engine.history.seen.lists.is_upgraded ≡ true }
        ensures turned { Turned result answers.now (S.view site.old) self.old looked (S.view site.new) self.new }
        ensures between { result ≡ Ok None → IsBetweenTurns self.new (S.view site.new) }
    {
        match tell(&mut self.engine, site, answers, issue, self.now) {
            Ok(()) => {
                self.left -= 1;
                Ok(None)
            }
            Err(error) => Err(error),
        }
    }

    /// Appends the Expire of the least issue at its deadline.
    fn expire<S: Site>(&mut self, site: &mut S, issue: u32) -> Result<Option<Close>, WorldError>
        requires between { IsBetweenTurns self.old (S.view site.old) }
        requires some { 1 ≤ self.old.left }
        requires overdue { IsFirstBy self.old.now (put_deadline self.old.engine) (Some issue) }
        ensures turned { (answers : List OperatorAnswer) → WhereLooked IsUntold answers (S.view site.old) self.old.engine
            → Turned result answers (S.view site.old) self.old looked (S.view site.new) self.new }
        ensures between { result ≡ Ok None → IsBetweenTurns self.new (S.view site.new) }
    {
        match expire(&mut self.engine, site, issue, self.now) {
            Ok(()) => {
                self.left -= 1;
                Ok(None)
            }
            Err(error) => Err(error),
        }
    }

    /// Puts the command again that is to be put next, whose moment has come.
    fn send_again<S: Site>(&mut self, site: &mut S, issue: u32) -> Result<Option<Close>, WorldError>
        requires between { IsBetweenTurns self.old (S.view site.old) }
        requires some { 1 ≤ self.old.left }
        requires next { (moment : ℕ) × IsNextPut self.old.engine.puts (Some (moment, issue)) × (moment ≤ self.old.now) }
        ensures turned { (answers : List OperatorAnswer) → WhereLooked IsOnTime answers (S.view site.old) self.old.engine
            → Turned result answers (S.view site.old) self.old looked (S.view site.new) self.new }
        ensures between { result ≡ Ok None → IsBetweenTurns self.new (S.view site.new) }
    {
        match resend(&mut self.engine, site, issue, self.now) {
            Ok(()) => Ok(None),
            Err(error) => Err(error),
        }
    }

    /// Asks the clock for what comes next, up to the last moment.
    fn wait<S: Site>(&mut self, site: &mut S, moment: u64) -> Result<Option<Close>, WorldError>
        requires between { IsBetweenTurns self.old (S.view site.old) }
        requires some { 1 ≤ self.old.left }
        ensures turned { (answers : List OperatorAnswer) → WhereLooked (λ w. ComesNext w moment) answers (S.view site.old) self.old.engine
            → Turned result answers (S.view site.old) self.old looked (S.view site.new) self.new }
        ensures between { result ≡ Ok None → IsBetweenTurns self.new (S.view site.new) }
    {
        if moment > LAST_MOMENT {
            return Err(WorldError::Limit {
                what: LimitKind::Moment,
            });
        }
        match reach(site, moment) {
            Ok(Some(now)) => {
                self.now = now;
                Ok(None)
            }
            Ok(None) => Ok(Some(Close::Waiting { due: moment })),
            Err(error) => Err(error),
        }
    }

    /// No parcel was there: what is due is done.
    fn go_on<S: Site>(
        &mut self,
        site: &mut S,
        answers: &Answers,
    ) -> Result<Option<Close>, WorldError>
        requires between { IsBetweenTurns self.old (S.view site.old) }
        requires some { 1 ≤ self.old.left }
        requires goes_on { outcome self.old.engine.history.seen.lists ≡ None }
        ensures turned { Turned result answers.now (S.view site.old) self.old looked (S.view site.new) self.new }
        ensures between { result ≡ Ok None → IsBetweenTurns self.new (S.view site.new) }
    {
        match first_due(&self.engine, answers, self.now) {
            Due::Move => self.make_move(site),
            Due::Upgrade => self.upgrade(site),
            Due::Tell { issue } => self.tell(site, answers, issue),
            Due::Expire { issue } => self.expire(site, issue),
            Due::Resend { issue } => self.send_again(site, issue),
            Due::Wait { moment } => self.wait(site, moment),
            Due::Ask { issue } => Ok(Some(Close::Asked { issue })),
        }
    }

    /// One turn: the session goes on behind it, or closes.
    pub fn take_turn<S: Site>(
        &mut self,
        site: &mut S,
        answers: &Answers,
    ) -> Result<Option<Close>, WorldError>
        requires between { IsBetweenTurns self.old (S.view site.old) }
        requires some { 1 ≤ self.old.left }
        requires goes_on { outcome self.old.engine.history.seen.lists ≡ None }
        ensures turned { Turned result answers.now (S.view site.old) self.old rests (S.view site.new) self.new }
        ensures between { result ≡ Ok None → IsBetweenTurns self.new (S.view site.new) }
        ensures more { result ≡ Ok None → used (S.view site.old) self.old < used (S.view site.new) self.new }
    {
        accepted_is_runnable();
        match site.take() {
            Ok(Some(parcel)) => self.deliver(site, &parcel),
            Ok(None) => self.go_on(site, answers),
            Err(_) => Err(WorldError::Memory),
        }
    }

    /// Turns, up to a close.
    fn run_on<S: Site>(&mut self, site: &mut S, answers: &Answers) -> Result<Close, WorldError>
        requires between { IsBetweenTurns self.old (S.view site.old) }
        ensures ended { Ended result answers.now (S.view site.old) self.old rests (S.view site.new) }
    {
        loop {
            if let Some(well) = self.engine.flow().outcome() {
                return Ok(Close::Ended { well });
            }
            if self.left == 0 {
                return Ok(Close::Paused);
            }
            match self.take_turn(site, answers) {
                Ok(None) => {}
                Ok(Some(close)) => return Ok(close),
                Err(error) => return Err(error),
            }
        }
    }

    /// What follows once the clock stands at the journal's last moment: the Begin, each command that waits, and the turns.
    pub fn run<S: Site>(&mut self, site: &mut S, answers: &Answers) -> Result<Close, WorldError>
        requires whole { IsWhole self.old.engine (S.view site.old) }
        requires filters { FiltersReady self.old.filters (S.view site.old) }
        requires now { self.old.now ≡ (S.view site.old).clock.now }
        requires later { self.old.engine.history.seen.moment ≤ self.old.now }
        requires in_time { self.old.now ≤ last_moment }
        requires no_puts { self.old.engine.puts ≡ [] }
        requires none { self.old.ignored ≡ 0 }
        requires some { 1 ≤ self.old.left }
        ensures ended { Ended result answers.now (S.view site.old) self.old rests (S.view site.new) }
    {
        match begin(&mut self.engine, site, self.now) {
            Ok(true) => {
                self.left -= 1;
                self.put_all(site, answers)
            }
            Ok(false) => self.put_all(site, answers),
            Err(error) => Err(error),
        }
    }

    /// Each command that waits, and the turns.
    fn put_all<S: Site>(&mut self, site: &mut S, answers: &Answers) -> Result<Close, WorldError>
        requires works { IsWorking self.old (S.view site.old) }
        requires no_puts { self.old.engine.puts ≡ [] }
        requires none { self.old.ignored ≡ 0 }
        ensures ended { Ended result answers.now (S.view site.old) self.old rests (S.view site.new) }
    {
        match put_waiting(&mut self.engine, site, self.now) {
            Ok(()) => self.run_on(site, answers),
            Err(error) => Err(error),
        }
    }
}
