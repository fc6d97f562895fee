// The engine.
ghost use Rattle.std.specs.Prelude.{◌≡◌, ◌≢◌, ◌↔◌, ◌+◌, ◌-◌, ◌/◌, ◌<◌, ◌≤◌, [], length, false, Some, Err, slice_get, IsTrue, IsSome, IfOk, IfErr, IfSome};
ghost use Rattle.cacao_site.specs.DiskCalls.{IsDurable, IsLeft, OnlyFile};
ghost use Rattle.base_dues.specs.Pairs.{is_by, IsFirstBy};
ghost use Rattle.flow_core_rules.specs.Moves.{deadline_of};
ghost use Rattle.flow_core_rules.specs.declared.issues.Issue.{Issue};
ghost use Rattle.flow_engine_history.specs.HistoryView.{HoldsRecords, IsReady};
ghost use Rattle.flow_engine_history.specs.Histories.{IsHistory, IsLineAt};
ghost use Rattle.flow_engine_history.specs.Openings.{IsRefusedOpening};
ghost use Rattle.flow_engine.specs.EngineCalls.{put_deadline, IsWaiting};
ghost use Rattle.flow_engine.specs.EngineView.{EngineView};
ghost use Rattle.flow_engine.specs.OpenIssues.{puts_of, ArePut, IsNextPut};

use crate::open_puts::OpenPuts;
use crate::puts::Puts;
use cacao_site::{Bytes, Disk};
use flow_engine_history::{EngineError, Flow, History, Setup};
use indexmap::IndexMap;
use run_records::Record;
use std::alloc::{AllocError, Global};
use std::marker::Model;

/// A run of playbooks (CACAO 2.0) whose records are kept in file 0, each durable before the run goes on; and the issues that it
/// put since it was opened.
///
/// Moments are in milliseconds. After `Disk` it answers `Broken` until the file is opened again.
pub struct Engine {
    pub(crate) alloc: Global,
    pub(crate) history: History,
    pub(crate) puts: OpenPuts,
    /// The record that was appended last, since the opening.
    pub(crate) last: Option<Record>,
}

// (by hand, and not by derive: so a drop is one call in the proofs of all who own one)
impl Drop for Engine {
    fn drop(self) {
        let Self {
            alloc: _,
            history: _,
            puts: _,
            last: _,
        } = self;
    }
}

impl Model for Engine {
    ghost use Rattle.flow_engine.specs.EngineView.{EngineView};

    ghost Value = { EngineView };

    ghost use Rattle.flow_engine.specs.Inside.{engine_view, IsKept};

    ghost view = { engine_view };

    ghost invariant = { IsKept };
}

impl Engine {
    /// Opens file 0 for the run of that number of what is given: it syncs, reads the records in one pass and goes on from one to the
    /// next. It writes nothing.
    ///
    /// `Damaged` comes where the bytes stand for no list or the first entry is no Begin; then `OtherRun` where the Begin has
    /// another number; then `OtherBook` where it has other texts; then `Damaged` where its moment is past the last one. Then the first
    /// later entry counts that is no record that may come next, which is `Damaged` too, or whose record would make more than
    /// 1,000,000 tasks, which is `Limit`.
    pub fn open_on<D: Disk>(
        alloc: Global,
        disk: &mut D,
        setup: Setup,
        run: u64,
    ) -> Result<Engine, EngineError>
        // Each image on the way was one before.
        ensures only { OnlyFile 0 (D.view disk.old) (D.view disk.new)
            (IsLeft (D.view disk.old).disk 0 (D.view disk.old).disk.beat) }
        ensures calls { IsTrue (D.view disk.old).disk.told
            → (D.view disk.new).disk.calls
            ≤ (D.view disk.old).disk.calls + 3 + length ((D.view disk.new).disk.reads 0) / 4096 }
        ensures bytes { (D.view disk.new).disk.written ≤ (D.view disk.old).disk.written }
        // Unless the disk failed, the file reads as before.
        ensures reads { result ≢ Err EngineError.Disk → (D.view disk.new).disk.reads 0 ≡ (D.view disk.old).disk.reads 0 }

        // The one image then stands for the records.
        ensures ready { IfOk result (λ engine. IsReady engine.history (D.view disk.new)) }
        ensures durable { IfOk result (λ engine. IsDurable 0 (D.view disk.new).disk) }
        ensures stands { IfOk result (λ engine. IsTrue (D.view disk.old).disk.told
            → HoldsRecords engine.history.records ((D.view disk.new).disk.reads 0)) }
        ensures prepared { IfOk result (λ engine. IsTrue (D.view disk.old).disk.told
            → IsTrue engine.history.prepared ↔ (9 < length ((D.view disk.new).disk.reads 0))) }
        ensures given { IfOk result (λ engine. engine.history.seen.given ≡ setup) }
        ensures run { IfOk result (λ engine. engine.history.seen.run ≡ run) }
        ensures whole { IfOk result (λ engine. engine.history.broken ≡ false) }
        ensures no_puts { IfOk result (λ engine. engine.puts ≡ []) }

        ensures refused { IfErr result (λ error. IsRefusedOpening setup run error (D.view disk.old) (D.view disk.new)) }
        // No answer but a failure of the disk counts a fault.
        ensures steady { result ≢ Err EngineError.Disk → (D.view disk.new).disk.faults ≡ (D.view disk.old).disk.faults }
    {
        let history = History::open_on(alloc, disk, setup, run)?;
        Ok(Engine {
            alloc,
            history,
            puts: OpenPuts::new(alloc),
            last: None,
        })
    }

    /// What holds of each engine: its records are a run so far of what it was given, within the limits, and the issues that it put
    /// wait. The call does nothing.
    pub fn law(&self)
        ensures history { IsHistory self.now.history }
        ensures put { ArePut self.now.history.seen self.now.puts }
    {
        self.history.law();
    }

    /// How many records there are. It takes no memory.
    pub fn count(&self) -> u32
        ensures { result ≡ length self.now.history.records }
    {
        self.history.count()
    }

    /// The moment of the last record, 0 where there is none. It takes no memory.
    pub fn last_moment(&self) -> u64
        ensures { result ≡ self.now.history.seen.moment }
    {
        self.history.flow().moment()
    }

    /// Whether the disk had failed, so that the file is to be opened again. It takes no memory.
    pub fn is_broken(&self) -> bool
        ensures { result ≡ self.now.history.broken }
    {
        self.history.is_broken()
    }

    /// How the run stands. It takes no memory.
    pub fn flow(&self) -> &Flow
        ensures count { result.now.count ≡ length self.now.history.records }
        ensures seen { result.now.seen ≡ self.now.history.seen }
    {
        self.history.flow()
    }

    /// The waiting issues that were put since the opening, each with its puts. It takes no memory.
    pub fn open_issues(&self) -> &IndexMap<u32, Puts>
        ensures { result.now.entries ≡ self.now.puts }
    {
        self.puts.as_map()
    }

    /// The line of the record with this number, with its line feed.
    pub fn line(&self, n: u32) -> Result<Bytes, AllocError>
        requires { n < length self.now.history.records }
        ensures { IfOk result (λ bytes. IsLineAt self.now.history n bytes) }
    {
        self.history.line(n)
    }

    /// The line of the last record, with its line feed: from the record as it was appended where that was since the opening, else
    /// from what is read back.
    pub fn last_line(&self) -> Result<Bytes, AllocError>
        requires { self.now.history.records ≢ [] }
        ensures { IfOk result (λ bytes. IsLineAt self.now.history (length self.now.history.records - 1) bytes) }
    {
        let n = self.history.count() - 1;
        match &self.last {
            Some(item) => self.history.line_of(n, item),
            None => self.history.line(n),
        }
    }

    /// The moment and the issue of the next resend: 5,000 milliseconds after its last put, as long as it was put less than nine
    /// times. It takes no memory.
    pub fn next_put(&self) -> Option<(u64, u32)>
        ensures { IsNextPut self.now.puts result }
    {
        self.puts.next()
    }

    /// Whether an issue was put since the opening and its deadline is not after a moment.
    fn is_overdue(&self, issue: u32, moment: u64) -> bool
        ensures { result ≡ is_by moment (put_deadline self.now issue) }
    {
        if self.puts.get(issue).is_none() {
            return false;
        }
        self.law();
        self.flow().deadline(issue) <= moment
    }

    /// The first of these issues that is overdue.
    fn first_overdue(&self, moment: u64) -> Option<u32>
        ensures { IsFirstBy moment (put_deadline self.now) result }
    {
        for issue in 0..self.flow().issues() {
            if self.is_overdue(issue, moment) {
                return Some(issue);
            }
        }
        None
    }

    /// The least issue that was put since the opening and whose deadline is not after the moment.
    fn first_by(&self, moment: u64) -> Option<u32>
        ensures { IsFirstBy moment (put_deadline self.now) result }
    {
        self.law();
        match self.flow().deadlines().least_by(moment) {
            None => None,
            Some(issue) => {
                if self.puts.get(issue).is_some() {
                    Some(issue)
                } else {
                    self.first_overdue(moment)
                }
            }
        }
    }

    /// The least waiting issue that was put since the opening and whose deadline is not after the moment. It takes no memory.
    pub fn overdue(&self, moment: u64) -> Option<u32>
        ensures least { IsFirstBy moment (put_deadline self.now) result }
        ensures put { IfSome result (λ issue. IsSome (puts_of self.now.puts issue)) }
        ensures due { IfSome result (λ issue. (it : Issue) → slice_get self.now.history.seen.lists.issues issue ≡ Some it
            → deadline_of self.now.history.seen it ≤ moment) }
    {
        self.first_by(moment)
    }

    /// Whether an issue is there and waits for a filter. It takes no memory.
    pub fn awaits(&self, issue: u32) -> bool
        ensures { IsTrue result ↔ ((it : Issue) × IsWaiting self.now.history.seen issue it) }
    {
        let flow = self.flow();
        flow.is_waiting(issue) && flow.agent_of(issue) != 0
    }
}
