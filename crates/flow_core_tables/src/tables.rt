// The tables of a run.
ghost use Rattle.std.specs.Prelude.{◌≡◌, ◌+◌, ◌<◌, ◌≤◌, ℕ, suc, length, OnOk};
ghost use Rattle.flow_core_rules.specs.Givens.{Given};
ghost use Rattle.flow_core_rules.specs.Edits.{shown_edited, all_shown_edited};
ghost use Rattle.flow_core_tables.specs.Planned.{edit_of, edits_of, IsDeclared, AreDeclared};
ghost use Rattle.flow_core_tables.specs.Fits.{Fits, AllFit};
ghost use Rattle.flow_core_tables.specs.TableFacts.{blank_lists, lists_of, seen_with, HasTables, HasRoom, IsSmall};

use crate::opened::Opened;
use crate::planned::Planned;
use base_dues::Dues;
use flow_core_rules::{Issue, Task};
use flow_core_setup::Setup;
use std::alloc::{AllocError, Global};

/// Of a task that joins: how many of the tasks that it waits for have not ended, and whether one of them has failed.
#[derive(Clone, Copy, PartialEq, Eq)]
pub struct Wait {
    pub open: u32,
    pub failed: bool,
}

/// The lists of a run, and the tables that tell what comes next without a look through all of them.
pub struct Tables {
    pub is_upgraded: bool,
    pub tasks: Vec<Task>,
    /// One for each task.
    pub waits: Vec<Wait>,
    /// The scopes, and the texts of each.
    pub opened: Opened,
    pub issues: Vec<Issue>,
    /// The tasks that can go on, each with the moment from which it can.
    pub ready: Dues,
    /// The tasks that stand before their steps, each with the moment at which the delay runs out.
    pub delays: Dues,
    /// The issues of filters that wait, each with its deadline.
    pub deadlines: Dues,
    /// The issues that wait for an operator, each with the moment 0.
    pub questions: Dues,
}

// (by hand, and not by derive: so a drop is one call in the proofs of all who own one)
impl Drop for Tables {
    fn drop(self) {
        let Self {
            is_upgraded: _,
            tasks: _,
            waits: _,
            opened: _,
            issues: _,
            ready: _,
            delays: _,
            deadlines: _,
            questions: _,
        } = self;
    }
}

impl Tables {
    /// Nothing. It takes no memory.
    pub fn new(alloc: Global) -> Tables
        ensures lists { lists_of result ≡ blank_lists }
        ensures tables { (given : Given) → HasTables (seen_with given (lists_of result)) result }
    {
        Tables {
            is_upgraded: false,
            tasks: Vec::new(alloc),
            waits: Vec::new(alloc),
            opened: Opened::new(alloc),
            issues: Vec::new(alloc),
            ready: Dues::new(alloc),
            delays: Dues::new(alloc),
            deadlines: Dues::new(alloc),
            questions: Dues::new(alloc),
        }
    }

    /// Takes the room for so many more edits. What the tables hold stays.
    pub fn reserve(&mut self, more: u32) -> Result<(), AllocError>
        requires small { IsSmall (lists_of self.old) }
        requires few { more ≤ 1_000_000 }
        ensures lists { lists_of self.new ≡ lists_of self.old }
        ensures tables { (given : Given) → HasTables (seen_with given (lists_of self.old)) self.old
            → HasTables (seen_with given (lists_of self.old)) self.new }
        ensures room { (k : ℕ) → HasRoom k self.old → HasRoom k self.new }
        ensures ok { OnOk result (HasRoom more self.new) }
    {
        let count = more as usize;
        self.tasks.reserve(count)?;
        self.waits.reserve(count)?;
        self.opened.reserve(more)?;
        self.issues.reserve(count)?;
        let tasks = self.tasks.len() as u32 + more;
        let issues = self.issues.len() as u32 + more;
        self.ready.reserve(tasks)?;
        self.delays.reserve(tasks)?;
        self.deadlines.reserve(issues)?;
        self.questions.reserve(issues)?;
        Ok(())
    }

    /// Makes one edit. It takes no memory.
    pub(crate) fn edit(&mut self, setup: &Setup, edit: Planned)
        requires fits { Fits (lists_of self.old) (edit_of edit) }
        requires declared { IsDeclared edit }
        requires tables { HasTables (seen_with setup.now (lists_of self.old)) self.old }
        requires tasks { length self.old.tasks.items < 4_294_967_295 }
        requires issues { length self.old.issues.items < 4_294_967_295 }
        requires room { HasRoom 1 self.old }
        ensures lists { lists_of self.new ≡ shown_edited (edit_of edit) (lists_of self.old) }
        ensures tables { HasTables (seen_with setup.now (lists_of self.new)) self.new }
        ensures room { (k : ℕ) → HasRoom (suc k) self.old → HasRoom k self.new }
    {
        match edit {
            Planned::Opens { scope, texts } => self.open(scope, texts),
            Planned::Writes { scope, name, worth } => self.write(scope, &name, worth),
            Planned::Makes(task) => self.make(setup, task),
            Planned::Moves { task, new } => self.move_to(setup, task, new),
            Planned::Issues(issue) => self.issue(setup, issue),
            Planned::Closes { issue, phase } => self.close(issue, phase),
            Planned::Upgrades => self.upgrade(),
        }
    }

    /// Makes all edits, the first one first, and gives the list back without them. It takes no memory.
    pub fn edit_all(&mut self, setup: &Setup, plan: Vec<Planned>) -> Vec<Planned>
        requires fits { AllFit (lists_of self.old) (edits_of plan.items) }
        requires declared { AreDeclared plan.items }
        requires tables { HasTables (seen_with setup.now (lists_of self.old)) self.old }
        requires tasks { length self.old.tasks.items + length plan.items < 4_294_967_295 }
        requires issues { length self.old.issues.items + length plan.items < 4_294_967_295 }
        requires room { HasRoom (length plan.items) self.old }
        ensures lists { lists_of self.new ≡ all_shown_edited (edits_of plan.items) (lists_of self.old) }
        ensures tables { HasTables (seen_with setup.now (lists_of self.new)) self.new }
    {
        let mut rest = plan;
        rest.reverse();
        while let Some(edit) = rest.pop() {
            self.edit(setup, edit);
        }
        rest
    }
}
