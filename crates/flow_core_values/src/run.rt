// A run as it stands.
ghost use Rattle.std.specs.Prelude.{◌≡◌, ◌≤◌, ℕ, Some, IfSome, length, option_map, slice_get};
ghost use Rattle.std.specs.Bool.{OnTrue};
ghost use Rattle.flow_core_rules.specs.Tasks.{here_at};
ghost use Rattle.flow_core_rules.specs.Changes.{is_in_time, outcome};
ghost use Rattle.flow_core_rules.specs.Lines.{key_of};
ghost use Rattle.flow_core_values.specs.RunFacts.{shown_of, here_of, IsWell};
ghost use Rattle.flow_core_values.specs.Stands.{StandsThere};
ghost use Rattle.flow_core_tables.specs.TableFacts.{lists_of};

use cacao_book::Step;
use cacao_vars::Vars;
use flow_core_rules::{Phase, Task};
use flow_core_tables::{Setup, Tables};
use run_records::LAST_MOMENT;

/// A run: what it was given, its number, the moment of its last record in milliseconds, and its tables.
pub struct Run {
    pub setup: Setup,
    pub number: u64,
    pub moment: u64,
    pub tables: Tables,
}

// (by hand, and not by derive: so a drop is one call in the proofs of all who own one)
impl Drop for Run {
    fn drop(self) {
        let Self {
            setup: _,
            number: _,
            moment: _,
            tables: _,
        } = self;
    }
}

/// A task at a moment, with its number and the step at which it stands.
#[derive(Clone, Copy)]
pub struct Stand<'a> {
    pub now: u64,
    pub number: u32,
    pub task: Task,
    pub step: &'a Step,
}

/// From where a value is seen: a scope, or one with these declarations that is opened inside it.
#[derive(Clone, Copy)]
pub struct Sight<'a> {
    pub opening: Option<&'a Vars>,
    pub scope: u32,
}

/// The most scopes of a run; no run of fewer than 100,000,000 records has more.
const MOST_SCOPES: usize = 200_000_001;

impl Run {
    /// Whether numbers of 32 bits are left for the scopes of one more record.
    pub fn has_numbers(&self) -> bool
        ensures { OnTrue result (length self.now.tables.opened.scopes ≤ 200_000_001) }
    {
        self.tables.opened.len() <= MOST_SCOPES
    }

    /// The task with this number. It takes no memory.
    pub fn task(&self, t: u32) -> Option<Task>
        ensures { result ≡ slice_get self.now.tables.tasks.items t }
    {
        self.tables.tasks.get(t as usize).copied()
    }

    /// The task with this number at a moment, if it stands at a step. It takes no memory.
    pub fn here(&self, now: u64, t: u32) -> Option<Stand<'_>>
        ensures { option_map (here_of (shown_of self.now)) result ≡ here_at (shown_of self.now) now t }
    {
        let task = self.task(t)?;
        let step = self.setup.step(task.book, task.step)?;
        Some(Stand {
            now,
            number: t,
            task,
            step,
        })
    }

    /// The task with this number at a moment, if it stands at a step.
    pub fn stand(&self, now: u64, t: u32) -> Option<Stand<'_>>
        requires { IsWell self.now }
        ensures here { option_map (here_of (shown_of self.now)) result ≡ here_at (shown_of self.now) now t }
        ensures there { IfSome result (StandsThere self.now) }
    {
        self.here(now, t)
    }

    /// How the run has ended, if it has. It takes no memory.
    pub fn outcome(&self) -> Option<bool>
        ensures { result ≡ outcome (lists_of self.now.tables) }
    {
        let task = self.task(0)?;
        match task.phase {
            Phase::Ended { well } => Some(well),
            _ => None,
        }
    }

    /// Whether a record may come next at a moment, in milliseconds.
    pub fn is_in_time(&self, now: u64) -> bool
        ensures { result ≡ is_in_time (shown_of self.now) now }
    {
        self.moment <= now && now <= LAST_MOMENT
    }

    /// The key of the step at which a task stands.
    pub fn key_of(&self, task: &Task) -> &str
        ensures { (t : ℕ) → slice_get self.now.tables.tasks.items t ≡ Some task.now → result.now ≡ key_of (shown_of self.now) t }
    {
        match self.setup.step(task.book, task.step) {
            Some(step) => step.key.text(),
            None => "",
        }
    }
}
