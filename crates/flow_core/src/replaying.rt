// A run from its records: its Begin, and then one record after another.
ghost use Rattle.std.specs.Prelude.{◌≡◌, ◌≢◌, ◌<◌, ◌≤◌, IfErr, IfOk, MatchOption, None, OnErr, OnOk, All, false, length, option_and_then};
ghost use Rattle.cacao_check.specs.Fits.{FitsKind};
ghost use Rattle.run_records.specs.Ranges.{InRange};
ghost use Rattle.flow_core_rules.specs.Accepted.{Accepted};
ghost use Rattle.flow_core_plans.specs.Setups.{AreAccepted, IsReadable};
ghost use Rattle.flow_core.specs.TakenRecords.{BeginsNone, HasBegun, IsStarted, NoneAccepted, RefusesRecord, Took};
ghost use Rattle.flow_core.specs.Views.{blank_shown, passed, taken};

use crate::flow::Flow;
use crate::flow_errors::FlowError;
use cacao_site::Bytes;
use flow_core_plans::{Setup, SetupError};
use run_records::{BytesList, Record};
use std::alloc::{AllocError, Global};

impl Flow {
    /// Takes a record, and first all memory that it needs. `NotEnabled` comes where it may not come next, `Limit` where the run would
    /// have more than 1,000,000 tasks: no record in range passes another limit. A refusal changes nothing.
    pub fn take(&mut self, item: &Record) -> Result<(), FlowError>
        requires few { self.old.count < 100_000_000 }
        requires in_range { InRange item.now }
        ensures ok { OnOk result (Took self.old item.now self.new) }
        ensures within { OnOk result (option_and_then (passed self.old.seen) (taken self.old item.now) ≡ None) }
        ensures err { OnErr result (self.new ≡ self.old) }
        ensures refused { IfErr result (RefusesRecord self.old item.now) }
    {
        match self.ready(item) {
            Ok(()) => {
                self.apply(item);
                Ok(())
            }
            Err(error) => Err(error),
        }
    }

    /// The run that a record begins, behind its Begin: what it is given are the texts of that record. None where these are not
    /// accepted, or are not canonical, or the moment is past 9,000,000,000,000,000, and where the record is no Begin.
    pub fn begun(alloc: Global, first: &Record) -> Result<Option<Flow>, AllocError>
        requires in_range { InRange first.now }
        ensures { IfOk result (λ o. MatchOption o (BeginsNone first.now) (HasBegun first.now)) }
    {
        let Record::Begin {
            run,
            books,
            bind,
            ..
        } = first
        else {
            return Ok(None);
        };
        let Some(setup) = setup_of(alloc, books, bind)? else {
            return Ok(None);
        };
        let mut flow = Flow::idle(alloc, setup, *run);
        if start(&mut flow, first)? {
            Ok(Some(flow))
        } else {
            Ok(None)
        }
    }
}

/// What these texts give a run; None where they are not accepted.
fn setup_of(alloc: Global, books: &BytesList, bind: &Bytes) -> Result<Option<Setup>, AllocError>
    requires some { 1 ≤ length books.now }
    requires few { length books.now ≤ 16 }
    requires readable { All IsReadable books.now }
    requires readable_bind { IsReadable bind.now }
    ensures { IfOk result (λ o. MatchOption o (NoneAccepted books.now bind.now) (Accepted AreAccepted FitsKind books.now bind.now)) }
{
    let error = match Setup::read(alloc, books.as_slice(), bind) {
        Ok(setup) => return Ok(Some(setup)),
        Err(error) => error,
    };
    if wants_memory(&error) {
        Err(AllocError)
    } else {
        Ok(None)
    }
}

/// Texts may be accepted where memory was wanting.
fn wants_memory(error: &SetupError) -> bool
    ensures { result ≡ false → error.now ≢ SetupError.Memory }
{
    matches!(error, SetupError::Memory)
}

/// Takes the Begin, which makes one task alone; false where it is not that of the run.
fn start(flow: &mut Flow, first: &Record) -> Result<bool, AllocError>
    requires count { flow.old.count ≡ 0 }
    requires blank { flow.old.seen ≡ blank_shown flow.old.seen.given flow.old.seen.run }
    requires in_range { InRange first.now }
    ensures { IfOk result (λ b. IsStarted flow.old first.now b flow.new) }
{
    match flow.take(first) {
        Ok(()) => Ok(true),
        Err(FlowError::NotEnabled) => Ok(false),
        Err(FlowError::Limit { .. }) => unreachable!(),
        Err(FlowError::Memory) => Err(AllocError),
    }
}
