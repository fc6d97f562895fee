// The acts of a filter, with their table and their places.
ghost use Rattle.std.specs.Prelude.{◌≡◌, ◌↔◌, ◌<◌, [], ◌∷◌, ◌++◌, length, find, Any, IsTrue, IfOk, OnOk, OnErr, option_copied, vec_len, vec_capacity};
ghost use Rattle.oc2_msg.specs.Commands.{answer_of};
ghost use Rattle.oc2_msg.specs.Ranges.{InRange};
ghost use Rattle.run_records.specs.Ranges.{ActInRange};
ghost use Rattle.slpf_rules_acts.specs.Acts.{table_of};
ghost use Rattle.slpf_actuator_acts.specs.ActLists.{IsHistory, MayFollow, moment_of_last};
ghost use Rattle.slpf_actuator_acts.specs.History.{is_of};

use crate::answering::{Asked, enact};
use run_records::Act;
use slpf_rules::Table;
use slpf_rules_acts::ActIndex;
use std::alloc::{AllocError, Global};
use std::marker::Model;

/// The acts of a filter in order, the table that they make, and the place of each by run and issue.
pub struct History {
    acts: Vec<Act>,
    index: ActIndex,
    table: Table,
}

// (by hand, and not by derive: so a drop is one call in the proofs of all who own one)
impl Drop for History {
    fn drop(self) {
        let Self {
            acts: _,
            index: _,
            table: _,
        } = self;
    }
}

impl Model for History {
    ghost use Rattle.std.specs.Prelude.{List};
    ghost use Rattle.run_records.specs.declared.act.Act.{Act};

    ghost Value = { List Act };

    ghost use Rattle.slpf_actuator_acts.specs.History.{KeepsHistory};

    ghost view = { λ history. history.acts.items };

    ghost invariant = { λ history. KeepsHistory history.acts.items history.index history.table };
}

/// Adds the act, for which there is room.
fn push_in_room(acts: &mut Vec<Act>, act: Act)
    requires { vec_len acts.old < vec_capacity acts.old }
    ensures { acts.new.items ≡ acts.old.items ++ act ∷ [] }
{
    match acts.push(act) {
        Ok(()) => {}
        Err(_) => unreachable!(),
    }
}

impl History {
    /// No act, and no rule. Takes no memory.
    pub(crate) fn new(alloc: Global) -> History
        ensures value { result ≡ [] }
        ensures history { IsHistory result }
    {
        History {
            acts: Vec::new(alloc),
            index: ActIndex::new(alloc),
            table: Table::new(alloc),
        }
    }

    /// How many acts there are.
    pub fn count(&self) -> u32
        ensures value { result ≡ length self.now }
        ensures history { IsHistory self.now }
    {
        self.acts.len() as u32
    }

    /// The rules after the acts.
    pub fn table(&self) -> &Table
        ensures { result.now ≡ table_of self.now }
    {
        &self.table
    }

    /// The moment of the last act, in milliseconds, 0 where there is none.
    pub(crate) fn last_moment(&self) -> u64
        ensures { result ≡ moment_of_last self.now }
    {
        match self.acts.last() {
            Some(act) => act.moment,
            None => 0,
        }
    }

    /// The act of a run and an issue, if there is one.
    pub fn find(&self, run: u64, issue: u32) -> Option<&Act>
        ensures { option_copied result ≡ find (is_of run issue) self.now }
    {
        match self.index.find(run, issue) {
            Some(place) => self.acts.get(place),
            None => None,
        }
    }

    /// Whether an act has this run.
    pub fn has_run(&self, run: u64) -> bool
        ensures { IsTrue result ↔ Any (λ act. act.run ≡ run) self.now }
    {
        self.acts.iter().any(|act| act.run == run)
    }

    /// Adds an act, and does what its command asks. Nothing changes where memory is wanted.
    pub(crate) fn push(&mut self, act: Act, asked: &Asked) -> Result<(), AllocError>
        requires in_range { ActInRange act }
        requires follows { MayFollow self.old act }
        requires few { length self.old < 4_294_967_295 }
        requires asked { asked.now ≡ answer_of act.command }
        requires command { IfOk asked.now InRange }
        ensures ok { OnOk result (self.new ≡ self.old ++ act ∷ []) }
        ensures history { OnOk result (IsHistory self.new) }
        ensures err { OnErr result (self.new ≡ self.old) }
    {
        self.acts.reserve(1)?;
        let place = self.acts.as_slice().len();
        self.index.insert(act.run, act.issue, place)?;
        match enact(&mut self.table, asked, act.moment) {
            Ok(()) => {
                push_in_room(&mut self.acts, act);
                Ok(())
            }
            Err(error) => {
                self.index.remove(act.run, act.issue);
                Err(error)
            }
        }
    }
}
