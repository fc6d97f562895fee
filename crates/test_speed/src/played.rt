// A run that is played.
ghost use Rattle.std.specs.Prelude.{◌≡◌, ◌+◌, ◌<◌, IfOk, IfSome, OnOk};
ghost use Rattle.flow_core.specs.Views.{IsReadyFor};

use crate::lines::line;
use cacao_site::Bytes;
use flow_core::{Flow, FlowError, Setup};
use run_records::Record;
use std::alloc::{AllocError, Global};
use std::marker::Model;

/// The most records of a run that is played.
const MOST: u32 = 50_000_000;

/// A run that is played, and how many records it has.
#[derive(Drop)]
pub(crate) struct Played {
    alloc: Global,
    flow: Flow,
    records: u32,
}

impl Model for Played {
    ghost use Rattle.std.specs.Prelude.{◌≡◌, ◌≤◌};
    ghost use Rattle.flow_core.specs.Views.{View};

    ghost Value = { View };

    ghost view = { λ played. played.flow };

    ghost invariant = { λ played. (played.flow.count ≡ played.records) × (played.records ≤ 50_000_000) };
}

/// Takes the record for which the flow is ready. The flow has one record more.
fn take_in(flow: &mut Flow, item: &Record)
    requires { IsReadyFor flow.old item.now }
    ensures { flow.new.count ≡ flow.old.count + 1 }
{
    flow.apply(item);
}

impl Played {
    /// A run of these playbooks before its Begin.
    pub(crate) fn idle(alloc: Global, setup: Setup, run: u64) -> Played {
        Played {
            alloc,
            flow: Flow::idle(alloc, setup, run),
            records: 0,
        }
    }

    /// How many records it has.
    pub(crate) fn records(&self) -> u32 {
        self.records
    }

    /// Its Begin at a moment, in milliseconds.
    pub(crate) fn begin(&self, moment: u64) -> Result<Record, AllocError> {
        self.flow.begin(moment)
    }

    /// The moment for which it waits, in milliseconds.
    pub(crate) fn due(&self) -> Option<u64> {
        self.flow.due()
    }

    /// The bytes of an issue; none where there is no such issue.
    pub(crate) fn bytes_of(&self, issue: u32) -> &[u8] {
        if issue < self.flow.issues() {
            self.flow.bytes_of(issue)
        } else {
            b""
        }
    }

    /// What is shown of it; nothing before its Begin.
    pub(crate) fn report(&self) -> Result<Bytes, AllocError> {
        if self.records == 0 {
            return Bytes::from_slice(self.alloc, b"");
        }
        self.flow.report()
    }

    /// Makes ready for a record.
    fn ready(&mut self, item: &Record) -> Result<(), FlowError>
        ensures ready { OnOk result (IsReadyFor self.new item.now) }
        ensures few { OnOk result (self.new.count < 50_000_000) }
    {
        if self.records >= MOST {
            return Err(FlowError::Memory);
        }
        self.flow.ready(item)
    }

    /// Takes the record for which it is ready.
    fn apply(&mut self, item: &Record)
        requires ready { IsReadyFor self.old item.now }
        requires few { self.old.count < 50_000_000 }
    {
        take_in(&mut self.flow, item);
        self.records += 1;
    }

    /// Makes ready for the move that comes next at a moment, in milliseconds, and gives its record, if there is one.
    fn ready_next(&mut self, moment: u64) -> Result<Option<Record>, FlowError>
        ensures ready { IfOk result (λ o. IfSome o (IsReadyFor self.new)) }
        ensures few { IfOk result (λ o. IfSome o (λ _. self.new.count < 50_000_000)) }
    {
        if self.records >= MOST {
            return Err(FlowError::Memory);
        }
        match self.flow.enabled(moment) {
            Some(step) => {
                let record = self.flow.ready_move(step, moment)?;
                Ok(Some(record))
            }
            None => Ok(None),
        }
    }

    /// Takes the record for which it is ready, and gives its line.
    fn apply_told(&mut self, item: &Record) -> Result<String, FlowError>
        requires ready { IsReadyFor self.old item.now }
        requires few { self.old.count < 50_000_000 }
    {
        let told = line(self.alloc, &self.flow, self.records, item)?;
        self.apply(item);
        Ok(told)
    }

    /// Takes a record.
    pub(crate) fn take(&mut self, item: &Record) -> Result<(), FlowError> {
        self.ready(item)?;
        self.apply(item);
        Ok(())
    }

    /// Takes a record, and gives its line.
    pub(crate) fn tell(&mut self, item: &Record) -> Result<String, FlowError> {
        self.ready(item)?;
        self.apply_told(item)
    }

    /// Takes the record of the move that comes next at a moment, in milliseconds. Whether there was one.
    pub(crate) fn take_next(&mut self, moment: u64) -> Result<bool, FlowError> {
        let Some(item) = self.ready_next(moment)? else {
            return Ok(false);
        };
        self.apply(&item);
        Ok(true)
    }

    /// Takes the record of the move that comes next at a moment, in milliseconds, and gives its line, if there is one.
    pub(crate) fn tell_next(&mut self, moment: u64) -> Result<Option<String>, FlowError> {
        let Some(item) = self.ready_next(moment)? else {
            return Ok(None);
        };
        let told = self.apply_told(&item)?;
        Ok(Some(told))
    }
}
