// The records of moves, each with what it changes.
ghost use Rattle.std.specs.Prelude.{◌≡◌, IfErr, IfOk, IfSome, Some, true, option_and_then, option_map};
ghost use Rattle.flow_core_rules.specs.Changes.{change, is_in_time};
ghost use Rattle.flow_core_rules.specs.Moves.{record_of};
ghost use Rattle.flow_core_rules.specs.declared.moves.Move.TheVariants as does_move;
ghost use Rattle.flow_core_plans.specs.Planned.{edits_of, AreDeclared};
ghost use Rattle.flow_core_plans.specs.RunFacts.{shown_of, IsWell};
ghost use Rattle.flow_core.specs.Comings.{IsOfMove};
ghost use Rattle.flow_core.specs.Views.{taken, taken_by, Refuses};

use crate::flow::Flow;
use crate::flow_errors::FlowError;
use flow_core_plans::{Planned, Run, next_command, next_question, planned, setup_law};
use flow_core_rules::Move;
use run_records::Record;
use std::alloc::{AllocError, Global};

/// A record that may come next, and what it changes.
#[derive(Drop)]
pub(crate) struct Coming {
    pub(crate) item: Record,
    pub(crate) edits: Vec<Planned>,
}

/// The Send of the command that a task sends next.
fn send(run: &Run, alloc: Global, task: u32, moment: u64) -> Result<Option<Coming>, AllocError>
    requires well { IsWell run.now }
    requires in_time { is_in_time (shown_of run.now) moment ≡ true }
    ensures of { IfOk result (λ o. IfSome o (IsOfMove (shown_of run.now) moment (does_move.Send task))) }
    ensures edits { IfOk result (λ o. option_map (λ coming. edits_of coming.edits.items) o
        ≡ option_and_then (change (shown_of run.now)) (record_of (shown_of run.now) moment (does_move.Send task))) }
{
    let issue = run.tables.issues.len() as u32;
    let found = next_command(run, alloc, moment, task)?;
    let Some(made) = found else {
        return Ok(None);
    };
    let item = Record::Send {
        task,
        issue,
        agent: made.issue.agent,
        moment,
        bytes: made.issue.bytes.copy(alloc)?,
    };
    let edits = planned(alloc, task, made)?;
    Ok(Some(Coming { item, edits }))
}

/// The Ask of what a task asks an operator next; None where the run is not upgraded.
fn ask(run: &Run, alloc: Global, task: u32, moment: u64) -> Result<Option<Coming>, AllocError>
    requires well { IsWell run.now }
    requires in_time { is_in_time (shown_of run.now) moment ≡ true }
    ensures of { IfOk result (λ o. IfSome o (IsOfMove (shown_of run.now) moment (does_move.Ask task))) }
    ensures edits { IfOk result (λ o. option_map (λ coming. edits_of coming.edits.items) o
        ≡ option_and_then (change (shown_of run.now)) (record_of (shown_of run.now) moment (does_move.Ask task))) }
{
    if !run.tables.is_upgraded {
        return Ok(None);
    }
    let issue = run.tables.issues.len() as u32;
    let found = next_question(run, alloc, moment, task)?;
    let Some(made) = found else {
        return Ok(None);
    };
    let item = Record::Ask {
        task,
        issue,
        moment,
        bytes: made.issue.bytes.copy(alloc)?,
    };
    let edits = planned(alloc, task, made)?;
    Ok(Some(Coming { item, edits }))
}

impl Flow {
    /// A record with what it changes; None where it may not come next.
    fn with_edits(&self, item: Record) -> Result<Option<Coming>, AllocError>
        ensures item { IfOk result (λ o. IfSome o (λ coming. coming.item ≡ item)) }
        ensures edits { IfOk result (λ o. option_map (λ coming. edits_of coming.edits.items) o ≡ taken self.now item) }
        ensures declared { IfOk result (λ o. IfSome o (λ coming. AreDeclared coming.edits.items)) }
    {
        match self.edits_for(Vec::new(self.alloc), &item)? {
            Some(edits) => Ok(Some(Coming { item, edits })),
            None => Ok(None),
        }
    }

    /// The Send of a task at a moment; None where there is none that may come next.
    fn coming_send(&self, task: u32, moment: u64) -> Result<Option<Coming>, AllocError>
        ensures of { IfOk result (λ o. IfSome o (IsOfMove self.now.seen moment (does_move.Send task))) }
        ensures edits { IfOk result (λ o. option_map (λ coming. edits_of coming.edits.items) o
            ≡ taken_by self.now moment (does_move.Send task)) }
    {
        if self.count == 0 {
            return Ok(None);
        }
        if !self.run.is_in_time(moment) {
            return Ok(None);
        }
        if !self.run.has_numbers() {
            return Err(AllocError);
        }
        setup_law(&self.run.setup);
        send(&self.run, self.alloc, task, moment)
    }

    /// The Ask of a task at a moment; None where there is none that may come next.
    fn coming_ask(&self, task: u32, moment: u64) -> Result<Option<Coming>, AllocError>
        ensures of { IfOk result (λ o. IfSome o (IsOfMove self.now.seen moment (does_move.Ask task))) }
        ensures edits { IfOk result (λ o. option_map (λ coming. edits_of coming.edits.items) o
            ≡ taken_by self.now moment (does_move.Ask task)) }
    {
        if self.count == 0 {
            return Ok(None);
        }
        if !self.run.is_in_time(moment) {
            return Ok(None);
        }
        if !self.run.has_numbers() {
            return Err(AllocError);
        }
        setup_law(&self.run.setup);
        ask(&self.run, self.alloc, task, moment)
    }

    /// The record of a move at a moment; None where it has none that may come next.
    fn coming_of(&self, step: Move, moment: u64) -> Result<Option<Coming>, AllocError>
        ensures of { IfOk result (λ o. IfSome o (IsOfMove self.now.seen moment step)) }
        ensures edits { IfOk result (λ o. option_map (λ coming. edits_of coming.edits.items) o ≡ taken_by self.now moment step) }
    {
        match step {
            Move::Walk { task } => self.with_edits(Record::Walk { task, moment }),
            Move::Upgrade => self.with_edits(Record::Upgrade { version: 2, moment }),
            Move::Send { task } => self.coming_send(task, moment),
            Move::Ask { task } => self.coming_ask(task, moment),
        }
    }

    /// The record of a move at a moment, with what it changes. `NotEnabled` comes where it has none that may come next. No memory is
    /// taken for a command, or a question, that is too long.
    pub(crate) fn coming(&self, step: Move, moment: u64) -> Result<Coming, FlowError>
        ensures of { IfOk result (IsOfMove self.now.seen moment step) }
        ensures edits { IfOk result (λ coming. taken_by self.now moment step ≡ Some (edits_of coming.edits.items)) }
        ensures refused { IfErr result (λ error. Refuses self.now error (taken_by self.now moment step)) }
    {
        if self.is_long(step, moment)? {
            return Err(self.why_long(step, moment));
        }
        let found = self.coming_of(step, moment)?;
        match found {
            Some(coming) => Ok(coming),
            None => Err(FlowError::NotEnabled),
        }
    }
}
