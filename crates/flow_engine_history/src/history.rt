// A run and its journal.
ghost use Rattle.std.specs.Prelude.{◌≡◌, IfOk, IfErr, OnOk, IsSome, length};
ghost use Rattle.run_records.specs.Ranges.{InRange};
ghost use Rattle.flow_core.specs.Views.{taken};
ghost use Rattle.flow_engine_history.specs.HistoryView.{HistoryView, IsReady, flow_of};
ghost use Rattle.flow_engine_history.specs.HistoryCalls.{Adds, Is, IsOfMove, MayMove, Refuses};
ghost use Rattle.flow_engine_history.specs.Histories.{IsHistory};

use crate::appending::{Moved, keep, prepare, prepare_move};
use crate::error::EngineError;
use cacao_site::Disk;
use flow_core::{Flow, Move};
use run_journal::Journal;
use run_records::Record;
use std::alloc::{AllocError, Global};
use std::marker::Model;

/// The numbers of a playbook and of one of its steps: a run has at most 16 playbooks of at most 4,096 steps each.
pub(crate) type Stand = (u16, u16);

/// Where a record has no such step.
pub(crate) const NOWHERE: Stand = (65_535, 0);

/// The records of a run in file 0, how the run stands after them, and for each Walk the step at which its task stood (four bytes a
/// record).
///
/// After `Disk` it answers `Broken` until the file is opened again.
pub struct History {
    pub(crate) alloc: Global,
    pub(crate) journal: Journal,
    pub(crate) flow: Flow,
    pub(crate) stands: Vec<Stand>,
}

// (by hand, and not by derive: so a drop is one call in the proofs of all who own one)
impl Drop for History {
    fn drop(self) {
        let Self {
            alloc: _,
            journal: _,
            flow: _,
            stands: _,
        } = self;
    }
}

impl Model for History {
    ghost use Rattle.flow_engine_history.specs.HistoryView.{HistoryView};

    ghost Value = { HistoryView };

    ghost use Rattle.flow_engine_history.specs.KeptHistory.{history_view, IsKept};

    ghost view = { history_view };

    ghost invariant = { IsKept };
}

impl History {
    /// What holds of each history. The call does nothing.
    pub fn law(&self)
        ensures { IsHistory self.now }
    {
        self.flow.law();
        let _ = self.journal.count();
    }

    /// How many records there are. It takes no memory.
    pub fn count(&self) -> u32
        ensures { result ≡ length self.now.records }
    {
        self.journal.count()
    }

    /// Whether the disk had failed, so that the file is to be opened again. It takes no memory.
    pub fn is_broken(&self) -> bool
        ensures { result ≡ self.now.broken }
    {
        self.journal.is_broken()
    }

    /// How the run stands. It takes no memory.
    pub fn flow(&self) -> &Flow
        ensures count { result.now.count ≡ length self.now.records }
        ensures seen { result.now.seen ≡ self.now.seen }
    {
        &self.flow
    }

    /// Appends a record, so that it is durable, and goes on to what it leads to. Nothing but a failure of the disk leaves a trace
    /// where it is refused. Between the append and that step it takes no memory.
    pub fn append<D: Disk>(&mut self, disk: &mut D, next: &Record) -> Result<(), EngineError>
        requires comes { IsSome (taken (flow_of self.old) next.now) }
        requires in_range { InRange next.now }
        requires ready { IsReady self.old (D.view disk.old) }
        ensures ready { IsReady self.new (D.view disk.new) }
        ensures ok { OnOk result (Adds self.old self.new (Is next.now) (D.view disk.old) (D.view disk.new)) }
        ensures refused { IfErr result (λ error. Refuses self.old self.new (Is next.now) error (D.view disk.old) (D.view disk.new)) }
    {
        if self.journal.is_broken() {
            return Err(EngineError::Broken);
        }
        let _ = self.journal.count();
        let made = match prepare(
            self.alloc,
            &mut self.flow,
            &mut self.journal,
            &mut self.stands,
            next,
        ) {
            Ok(made) => made,
            Err(error) => return Err(error),
        };
        match keep(
            &mut self.flow,
            &mut self.journal,
            &mut self.stands,
            disk,
            next,
            made,
        ) {
            Ok(()) => {}
            Err(error) => return Err(error),
        }
        Ok(())
    }

    /// Appends the record of a move at a moment, in milliseconds, and gives it. What it changes is made once: `append` of the record
    /// that the flow makes of the move does the same. Nothing but a failure of the disk leaves a trace where it is refused. Between the
    /// append and that step it takes no memory.
    pub fn append_move<D: Disk>(
        &mut self,
        disk: &mut D,
        step: Move,
        moment: u64,
    ) -> Result<Record, EngineError>
        requires moves { MayMove (flow_of self.old) step moment }
        requires ready { IsReady self.old (D.view disk.old) }
        ensures ready { IsReady self.new (D.view disk.new) }
        ensures made { IfOk result (IsOfMove self.old step moment) }
        ensures ok { IfOk result (λ next. Adds self.old self.new (Is next) (D.view disk.old) (D.view disk.new)) }
        ensures refused { IfErr result (λ error. Refuses self.old self.new (IsOfMove self.old step moment) error
            (D.view disk.old) (D.view disk.new)) }
    {
        if self.journal.is_broken() {
            return Err(EngineError::Broken);
        }
        let _ = self.journal.count();
        let moved = match prepare_move(
            self.alloc,
            &mut self.flow,
            &mut self.journal,
            &mut self.stands,
            step,
            moment,
        ) {
            Ok(moved) => moved,
            Err(error) => return Err(error),
        };
        let Moved { next, made } = moved;
        match keep(
            &mut self.flow,
            &mut self.journal,
            &mut self.stands,
            disk,
            &next,
            made,
        ) {
            Ok(()) => {}
            Err(error) => return Err(error),
        }
        Ok(next)
    }
}
