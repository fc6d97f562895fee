// A run that goes on from record to record.
ghost use Rattle.std.specs.Prelude.{◌≡◌, ◌+◌, ◌<◌, None, Some, IfOk, IfSome, OnOk, OnErr, option_map};
ghost use Rattle.run_records.specs.declared.record.Record.TheVariants as entry;
ghost use Rattle.flow_core_rules.specs.Runs.{begin_of};
ghost use Rattle.flow_core_rules.specs.Moves.{record_of};
ghost use Rattle.flow_core_plans.specs.Planned.{edits_of, AreDeclared};
ghost use Rattle.flow_core.specs.Flows.{plan_of, HasSizes, IsReached};
ghost use Rattle.flow_core_plans.specs.Setups.{IsSetup};
ghost use Rattle.flow_core.specs.Views.{blank_shown, taken, taken_by, passed, AsksText, IsReadyFor, Takes, Answers};

use crate::coming::Coming;
use crate::flow_errors::FlowError;
use crate::limits::{MOST_EDITS, passed};
use flow_core_plans::{
    Planned, Run, Setup, Tables, begin, change, first_change, moment_of, setup_law,
};
use flow_core_rules::Move;
use run_records::Record;
use std::alloc::{AllocError, Global};
use std::marker::Model;
use std::mem;

/// What a record changes that may come next, and its moment in milliseconds.
#[derive(Drop)]
pub(crate) struct Plan {
    pub moment: u64,
    pub edits: Vec<Planned>,
}

/// A run of playbooks (CACAO 2.0, section 4). It is made idle, and takes its Begin and then its other records one after
/// another: `ready` takes the memory that a record needs, or `ready_move` that of a move's, and `apply` takes the record.
pub struct Flow {
    pub(crate) alloc: Global,
    pub(crate) run: Run,
    pub(crate) count: u32,
    plan: Option<Plan>,
    // The list whose memory the next plan takes.
    spare: Vec<Planned>,
}

// (by hand, and not by derive: so a drop is one call in the proofs of all who own one)
impl Drop for Flow {
    fn drop(self) {
        let Self {
            alloc: _,
            run: _,
            count: _,
            plan: _,
            spare: _,
        } = self;
    }
}

impl Model for Flow {
    ghost use Rattle.flow_core.specs.Views.{View};

    ghost Value = { View };

    ghost use Rattle.flow_core.specs.Flows.{view_of, IsSound};

    ghost view = { view_of };

    ghost invariant = { IsSound };
}

impl Flow {
    /// The run of that number before its Begin. It takes no memory.
    pub fn idle(alloc: Global, setup: Setup, run: u64) -> Flow
        ensures count { result.count ≡ 0 }
        ensures seen { result.seen ≡ blank_shown setup run }
        ensures plan { result.plan ≡ None }
    {
        Flow {
            alloc,
            run: Run {
                setup,
                number: run,
                moment: 0,
                tables: Tables::new(alloc),
            },
            count: 0,
            plan: None,
            spare: Vec::new(alloc),
        }
    }

    /// What holds of each flow: it shows the state of a run of as many records as it took, or what is before the first; its tasks,
    /// issues and moment are within their limits; and what it was given is a setup. The call does nothing.
    pub fn law(&self)
        ensures reached { IsReached self.now.count self.now.seen }
        ensures sizes { HasSizes self.now.count self.now.seen }
        ensures setup { IsSetup self.now.seen.given }
    {
        setup_law(&self.run.setup);
    }

    /// The Begin of this run at a moment, in milliseconds, with the canonical texts of its playbooks and bindings.
    pub fn begin(&self, moment: u64) -> Result<Record, AllocError>
        ensures { IfOk result (λ item. item ≡ begin_of self.now.seen.given self.now.seen.run moment) }
    {
        begin(&self.run, self.alloc, moment)
    }

    /// What a record changes; None where it may not come next. The memory of a list is taken for it.
    pub(crate) fn edits_for(
        &self,
        spare: Vec<Planned>,
        item: &Record,
    ) -> Result<Option<Vec<Planned>>, AllocError>
        ensures edits { IfOk result (λ o. option_map (λ plan. edits_of plan.items) o ≡ taken self.now item.now) }
        ensures declared { IfOk result (λ o. IfSome o (λ plan. AreDeclared plan.items)) }
    {
        if self.count == 0 {
            return first_change(&self.run, self.alloc, item);
        }
        if !self.run.has_numbers() {
            return Err(AllocError);
        }
        setup_law(&self.run.setup);
        change(&self.run, self.alloc, spare, item)
    }

    /// The list whose memory the next plan takes; the flow keeps one without any.
    fn take_spare(&mut self) -> Vec<Planned>
        ensures { self.new ≡ self.old }
    {
        mem::replace(&mut self.spare, Vec::new(self.alloc))
    }

    /// Keeps a plan, and takes the room for it. A refusal changes nothing.
    fn hold(&mut self, plan: Plan) -> Result<(), FlowError>
        requires declared { AreDeclared plan.edits.items }
        requires few { self.old.count < 100_000_000 }
        ensures ok { OnOk result (self.new ≡ record self.old { plan = Some (plan_of plan) }) }
        ensures err { OnErr result (self.new ≡ self.old) }
        ensures answers { Answers self.old result (Some (edits_of plan.edits.items)) }
    {
        match passed(self.run.tables.tasks.len(), plan.edits.as_slice()) {
            Some(what) => Err(FlowError::Limit { what }),
            None => {
                let count = plan.edits.len();
                if count > MOST_EDITS || !self.run.has_numbers() {
                    return Err(FlowError::Memory);
                }
                self.run.tables.reserve(count as u32)?;
                self.plan = Some(plan);
                Ok(())
            }
        }
    }

    /// Takes all memory that a record needs. `NotEnabled` comes where it may not come next, `Limit` where the run would
    /// have more than 1,000,000 tasks, or a command or what an operator is asked more than 1,048,576 bytes. A refusal changes
    /// nothing.
    pub fn ready(&mut self, item: &Record) -> Result<(), FlowError>
        requires { self.old.count < 100_000_000 }
        ensures ok { OnOk result (IsReadyFor self.new item.now) }
        ensures count { self.new.count ≡ self.old.count }
        ensures seen { self.new.seen ≡ self.old.seen }
        ensures err { OnErr result (self.new ≡ self.old) }
        ensures answers { Answers self.old result (taken self.old item.now) }
    {
        let spare = self.take_spare();
        let found = self.edits_for(spare, item)?;
        match found {
            Some(edits) => self.hold(Plan {
                moment: moment_of(item),
                edits,
            }),
            None => Err(FlowError::NotEnabled),
        }
    }

    /// Makes ready for a Walk of the task with this number at a moment, as `ready` does.
    fn ready_walk(&mut self, task: u32, moment: u64) -> Result<(), FlowError>
        requires { self.old.count < 100_000_000 }
        ensures ok { OnOk result (IsReadyFor self.new (entry.Walk task moment)) }
        ensures count { self.new.count ≡ self.old.count }
        ensures seen { self.new.seen ≡ self.old.seen }
        ensures err { OnErr result (self.new ≡ self.old) }
        ensures answers { Answers self.old result (taken self.old (entry.Walk task moment)) }
    {
        let item = Record::Walk { task, moment };
        self.ready(&item)
    }

    /// Takes the record that it was made ready for. It takes no memory.
    pub fn apply(&mut self, item: &Record)
        requires { IsReadyFor self.old item.now }
        ensures { Takes self.old item.now self.new }
    {
        setup_law(&self.run.setup);
        let Some(plan) = self.plan.take() else {
            unreachable!()
        };
        self.spare = self.run.tables.edit_all(&self.run.setup, plan.edits);
        self.run.moment = plan.moment;
        self.count += 1;
    }

    /// The record of a move at a moment, in milliseconds; what an operator is asked is UTF-8. It is refused as `ready` refuses
    /// that record, and where the move has none. No memory is taken for a command, or a question, that is too long.
    pub fn make(&self, step: Move, moment: u64) -> Result<Record, FlowError>
        requires { self.now.count < 100_000_000 }
        ensures made { IfOk result (λ item. record_of self.now.seen moment step ≡ Some item) }
        ensures text { IfOk result AsksText }
        ensures answers { Answers self.now result (taken_by self.now moment step) }
    {
        let Coming { item, edits } = self.coming(step, moment)?;
        match passed(self.run.tables.tasks.len(), edits.as_slice()) {
            Some(what) => Err(FlowError::Limit { what }),
            None => Ok(item),
        }
    }

    /// The record of a move, and the flow ready for it, as `ready_move` tells.
    fn ready_coming(&mut self, step: Move, moment: u64) -> Result<Record, FlowError>
        requires { self.old.count < 100_000_000 }
        ensures made { IfOk result (λ item. record_of self.old.seen moment step ≡ Some item) }
        ensures text { IfOk result AsksText }
        ensures ready { IfOk result (IsReadyFor self.new) }
        ensures count { self.new.count ≡ self.old.count }
        ensures seen { self.new.seen ≡ self.old.seen }
        ensures err { OnErr result (self.new ≡ self.old) }
        ensures answers { Answers self.old result (taken_by self.old moment step) }
    {
        let Coming { item, edits } = self.coming(step, moment)?;
        let moment = moment_of(&item);
        self.hold(Plan { moment, edits })?;
        Ok(item)
    }

    /// The record of a move at a moment, in milliseconds, as `make` gives it or refuses it; the flow is then ready for it, as `ready`
    /// makes it. A refusal changes nothing.
    pub fn ready_move(&mut self, step: Move, moment: u64) -> Result<Record, FlowError>
        requires { self.old.count < 100_000_000 }
        ensures made { IfOk result (λ item. record_of self.old.seen moment step ≡ Some item) }
        ensures text { IfOk result AsksText }
        ensures ready { IfOk result (IsReadyFor self.new) }
        ensures count { self.new.count ≡ self.old.count }
        ensures seen { self.new.seen ≡ self.old.seen }
        ensures err { OnErr result (self.new ≡ self.old) }
        ensures answers { Answers self.old result (taken_by self.old moment step) }
    {
        match step {
            Move::Walk { task } => {
                self.ready_walk(task, moment)?;
                Ok(Record::Walk { task, moment })
            }
            _ => self.ready_coming(step, moment),
        }
    }
}
