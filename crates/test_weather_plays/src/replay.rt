// A run that is gone through again, record by record.
ghost use Rattle.std.specs.Prelude.{◌≡◌, ◌+◌, ◌<◌, OnOk};
ghost use Rattle.flow_core.specs.Views.{IsReadyFor};

use flow_core::{Flow, FlowError, Setup};
use run_records::Record;
use std::alloc::{AllocError, Global};
use std::marker::Model;

/// The most records of a run that is gone through.
const MOST: u32 = 50_000_000;

/// A run, and how many of its records were gone through.
pub(crate) struct Replay {
    flow: Flow,
    records: u32,
}

// (by hand, and not by derive: so a drop is one call in the proofs of all who own one)
impl Drop for Replay {
    fn drop(self) {
        let Self {
            flow: _,
            records: _,
        } = self;
    }
}

impl Model for Replay {
    ghost use Rattle.std.specs.Prelude.{◌≡◌, ◌≤◌};
    ghost use Rattle.flow_core.specs.Views.{View};

    ghost Value = { View };

    ghost view = { λ replay. replay.flow };

    ghost invariant = { λ replay. (replay.flow.count ≡ replay.records) × (replay.records ≤ 50_000_000) };
}

/// Takes the record for which the flow is ready. The flow has one record more.
fn take_in(flow: &mut Flow, item: &Record)
    requires { IsReadyFor flow.old item.now }
    ensures { flow.new.count ≡ flow.old.count + 1 }
{
    flow.apply(item);
}

impl Replay {
    /// A run of these playbooks before its Begin.
    pub(crate) fn idle(alloc: Global, setup: Setup, run: u64) -> Replay {
        Replay {
            flow: Flow::idle(alloc, setup, run),
            records: 0,
        }
    }

    /// How many records were gone through.
    pub(crate) fn count(&self) -> u32 {
        self.records
    }

    /// Whether the run has a move at a moment, in milliseconds.
    pub(crate) fn has_move(&self, moment: u64) -> bool {
        self.flow.enabled(moment).is_some()
    }

    /// The least issue whose deadline is not after a moment, in milliseconds.
    pub(crate) fn overdue(&self, moment: u64) -> Option<u32> {
        self.flow.deadlines().least_by(moment)
    }

    /// Makes ready for a record.
    fn ready(&mut self, item: &Record) -> Result<(), FlowError>
        ensures ready { OnOk result (IsReadyFor self.new item.now) }
        ensures few { OnOk result (self.new.count < 50_000_000) }
    {
        if self.records >= MOST {
            return Err(FlowError::Memory);
        }
        self.flow.ready(item)
    }

    /// Takes the record for which it is ready.
    fn apply(&mut self, item: &Record)
        requires ready { IsReadyFor self.old item.now }
        requires few { self.old.count < 50_000_000 }
    {
        take_in(&mut self.flow, item);
        self.records += 1;
    }

    /// Takes a record; false where it may not come next.
    pub(crate) fn take(&mut self, item: &Record) -> Result<bool, AllocError> {
        match self.ready(item) {
            Ok(()) => {
                self.apply(item);
                Ok(true)
            }
            Err(FlowError::Memory) => Err(AllocError),
            Err(_) => Ok(false),
        }
    }

    /// Takes the first of these records, up to a count; false where one of them may not come next.
    pub(crate) fn take_first(&mut self, items: &[Record], count: u32) -> Result<bool, AllocError> {
        for item in items {
            if self.records < count && !self.take(item)? {
                return Ok(false);
            }
        }
        Ok(true)
    }
}
