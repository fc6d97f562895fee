// The calls that append a record.
ghost use Rattle.std.specs.Prelude.{◌≡◌, ◌≢◌, ◌≤◌, [], None, Some, true, false, Ok, IfOk, IfErr, OnOk, IsSome, IfSome, MatchOption, length, slice_get};
ghost use Rattle.oc2_msg.specs.declared.answers.Answer.{Answer};
ghost use Rattle.oc2_msg.specs.Ranges.{AnswerInRange};
ghost use Rattle.run_records.specs.Ranges.{last_moment};
ghost use Rattle.run_records.specs.declared.record.Record.TheVariants as entry;
ghost use Rattle.flow_core_rules.specs.Changes.{is_in_time, is_waiting, outcome};
ghost use Rattle.flow_core_rules.specs.Moves.{deadline_of, enabled_move};
ghost use Rattle.flow_core_rules.specs.declared.issues.Issue.{Issue};
ghost use Rattle.flow_engine_history.specs.Views.{taken};
ghost use Rattle.flow_engine_history.specs.HistoryCalls.{Is, MayMove};
ghost use Rattle.flow_engine_history.specs.HistoryView.{IsReady, flow_of};
ghost use Rattle.flow_engine_answers.specs.Answers.{IsOperatorAnswer};
ghost use Rattle.flow_engine.specs.EngineCalls.{Appends, IsBeginning, IsComing, IsFinal, IsFromFilter, IsMove, IsReply, IsReplyTo, IsStanding, IsWaiting, Refused};
ghost use Rattle.flow_engine.specs.OpenIssues.{puts_of};

use crate::engine::Engine;
use cacao_site::{Bytes, Disk, Parcel, Site};
use flow_core_rules::{
    moves_are_in_range, moves_have_records, records_keep_issues, runs_are_sane, waiting_can_end,
};
use flow_engine_answers::OperatorAnswer;
use flow_engine_history::{EngineError, Flow, Move};
use oc2_msg::{Answer, ResponseError, read_response};
use run_records::Record;
use std::alloc::{AllocError, Global};

/// What the bytes of a response answer, where its status is not 102 (OpenC2 Language 1.0, section 3.2).
fn final_answer(alloc: Global, bytes: &[u8]) -> Result<Option<Answer>, AllocError>
    requires { length bytes.now ≤ 1_048_576 }
    ensures some { IfOk result (λ found. IfSome found (IsFinal bytes.now)) }
    ensures in_range { IfOk result (λ found. IfSome found AnswerInRange) }
    ensures none { result ≡ Ok None → (read : Answer) → IsFinal bytes.now read → ⊥ }
{
    match read_response(alloc, bytes) {
        Ok(read) => {
            if read.status == 102 {
                return Ok(None);
            }
            Ok(Some(read))
        }
        Err(ResponseError::Malformed) => Ok(None),
        Err(ResponseError::Memory) => Err(AllocError),
    }
}

/// The filter of an issue that waits for one.
fn awaited_filter(flow: &Flow, issue: u32) -> Option<u8>
    ensures { MatchOption result ((it : Issue) → IsWaiting flow.now.seen issue it → ⊥)
        (λ agent. (it : Issue) × IsWaiting flow.now.seen issue it × (agent ≡ it.agent)) }
{
    if !flow.is_waiting(issue) {
        return None;
    }
    let agent = flow.agent_of(issue);
    if agent == 0 {
        return None;
    }
    Some(agent)
}

/// The Reply of an issue with what was read.
fn reply_with(alloc: Global, issue: u32, moment: u64, read: Answer) -> Result<Record, AllocError>
    ensures { IfOk result (λ made. made ≡ entry.Reply issue moment read.status read.rule read.text) }
{
    let Answer { status, rule, text } = read;
    let text = text.into_string(alloc)?;
    Ok(Record::Reply {
        issue,
        moment,
        status,
        rule,
        text: Bytes::from_vec(text.into_bytes()),
    })
}

impl Engine {
    /// What holds of the run. The call does nothing.
    pub(crate) fn stand(&self)
        ensures { IsStanding self.now.history }
    {
        self.history.law();
        self.history.flow().law();
    }

    /// Appends a record, so that it is durable, and goes on to what it leads to; the issue that it ends, if it ends one, is open no
    /// more. Nothing but a failure of the disk leaves a trace where it is refused.
    fn append<D: Disk>(&mut self, disk: &mut D, next: Record) -> Result<(), EngineError>
        requires comes { IsComing self.old.history next }
        requires ready { IsReady self.old.history (D.view disk.old) }
        ensures ready { IsReady self.new.history (D.view disk.new) }
        ensures ok { OnOk result (Appends self.old self.new (Is next) (D.view disk.old) (D.view disk.new)) }
        ensures refused { IfErr result (λ error. Refused self.old self.new (Is next) error (D.view disk.old) (D.view disk.new)) }
    {
        self.stand();
        records_keep_issues();
        match self.history.append(disk, &next) {
            Ok(()) => {
                self.puts.end(&next);
                self.last = Some(next);
                Ok(())
            }
            Err(error) => Err(error),
        }
    }

    /// The Begin of the run at a moment.
    fn beginning(&self, moment: u64) -> Result<Record, AllocError>
        requires empty { self.now.history.records ≡ [] }
        requires in_time { moment ≤ last_moment }
        ensures is { IfOk result (IsBeginning self.now.history moment) }
        ensures comes { IfOk result (IsComing self.now.history) }
    {
        self.stand();
        let flow = self.history.flow();
        let _run = flow.run();
        let next = flow.begin(moment)?;
        Ok(next)
    }

    /// The enabled move has a record that may come next, and that is in range within the limits. The call does nothing.
    fn may_move(&self, found: Move, moment: u64)
        requires { enabled_move self.now.history.seen moment ≡ Some found }
        ensures { MayMove (flow_of self.now.history) found moment }
    {
        self.stand();
        moves_have_records();
        moves_are_in_range();
    }

    /// Appends the record of the enabled move, as `append` does, with what it changes made once.
    fn append_move<D: Disk>(
        &mut self,
        disk: &mut D,
        found: Move,
        moment: u64,
    ) -> Result<(), EngineError>
        requires enabled { enabled_move self.old.history.seen moment ≡ Some found }
        requires ready { IsReady self.old.history (D.view disk.old) }
        ensures ready { IsReady self.new.history (D.view disk.new) }
        ensures ok { OnOk result (Appends self.old self.new (IsMove self.old.history moment) (D.view disk.old) (D.view disk.new)) }
        ensures refused { IfErr result (λ error. Refused self.old self.new (IsMove self.old.history moment) error
            (D.view disk.old) (D.view disk.new)) }
    {
        self.stand();
        records_keep_issues();
        self.may_move(found, moment);
        match self.history.append_move(disk, found, moment) {
            Ok(made) => {
                self.puts.end(&made);
                self.last = Some(made);
                Ok(())
            }
            Err(error) => Err(error),
        }
    }

    /// Whether a parcel is a reply of this run from the filter of a waiting issue.
    fn is_from_filter(&self, parcel: &Parcel) -> bool
        ensures yes { result ≡ true → IsFromFilter self.now.history parcel.now }
        ensures no { result ≡ false → IsFromFilter self.now.history parcel.now → ⊥ }
    {
        let flow = self.history.flow();
        if !parcel.back || parcel.run != flow.run() {
            return false;
        }
        match awaited_filter(flow, parcel.issue) {
            Some(agent) => agent == parcel.agent,
            None => false,
        }
    }

    /// The Reply of a parcel's issue with what its bytes read as.
    fn reply_record(&self, parcel: &Parcel, read: Answer, moment: u64) -> Result<Record, AllocError>
        requires to { IsReplyTo self.now.history parcel.now read }
        requires in_range { AnswerInRange read }
        requires in_time { is_in_time self.now.history.seen moment ≡ true }
        ensures is { IfOk result (IsReply self.now.history parcel.now moment) }
        ensures comes { IfOk result (IsComing self.now.history) }
    {
        self.stand();
        runs_are_sane();
        waiting_can_end();
        moves_are_in_range();
        let next = reply_with(self.alloc, parcel.issue, moment, read)?;
        Ok(next)
    }

    /// The Expire of an issue may come next. The call does nothing.
    fn may_expire(&self, issue: u32, moment: u64)
        requires put { IsSome (puts_of self.now.puts issue) }
        requires due { (it : Issue) → slice_get self.now.history.seen.lists.issues issue ≡ Some it
            → deadline_of self.now.history.seen it ≤ moment }
        requires in_time { is_in_time self.now.history.seen moment ≡ true }
        ensures { IsComing self.now.history (entry.Expire issue moment) }
    {
        self.law();
        self.stand();
        runs_are_sane();
        waiting_can_end();
        moves_are_in_range();
    }

    /// An Upgrade may come next. The call does nothing.
    fn may_upgrade(&self, moment: u64)
        requires begun { self.now.history.records ≢ [] }
        requires goes_on { outcome self.now.history.seen.lists ≡ None }
        requires earlier { self.now.history.seen.lists.is_upgraded ≡ false }
        requires in_time { is_in_time self.now.history.seen moment ≡ true }
        ensures { IsComing self.now.history (entry.Upgrade 2 moment) }
    {
        self.stand();
        moves_are_in_range();
    }

    /// A Told that may come next is in range. The call does nothing.
    fn may_tell(&self, issue: u32, status: u16, text: &Bytes, moment: u64)
        requires { IsSome (taken (flow_of self.now.history) (entry.Told issue moment status text.now)) }
        ensures { IsComing self.now.history (entry.Told issue moment status text.now) }
    {
        self.stand();
        moves_are_in_range();
    }

    /// Appends the Begin of the run at a moment.
    pub fn start<S: Site>(&mut self, site: &mut S, moment: u64) -> Result<(), EngineError>
        requires empty { self.old.history.records ≡ [] }
        requires in_time { moment ≤ last_moment }
        requires ready { IsReady self.old.history (S.view site.old) }
        ensures ready { IsReady self.new.history (S.view site.new) }
        ensures ok { OnOk result (Appends self.old self.new (IsBeginning self.old.history moment) (S.view site.old) (S.view site.new)) }
        ensures refused { IfErr result (λ error. Refused self.old self.new (IsBeginning self.old.history moment) error
            (S.view site.old) (S.view site.new)) }
    {
        if self.history.is_broken() {
            return Err(EngineError::Broken);
        }
        let next = self.beginning(moment)?;
        self.append(site, next)
    }

    /// Appends the record of the move that is enabled at a moment; false exactly where none is.
    pub fn step<S: Site>(&mut self, site: &mut S, moment: u64) -> Result<bool, EngineError>
        requires in_time { is_in_time self.old.history.seen moment ≡ true }
        requires ready { IsReady self.old.history (S.view site.old) }
        ensures ready { IsReady self.new.history (S.view site.new) }
        ensures stepped { result ≡ Ok true → Appends self.old self.new (IsMove self.old.history moment) (S.view site.old) (S.view site.new) }
        ensures idle { result ≡ Ok false → enabled_move self.old.history.seen moment ≡ None }
        ensures idle_whole { result ≡ Ok false → self.old.history.broken ≡ false }
        ensures idle_stays { result ≡ Ok false → (self.new ≡ self.old) × (site.new ≡ site.old) }
        ensures refused { IfErr result (λ error. Refused self.old self.new (IsMove self.old.history moment) error
            (S.view site.old) (S.view site.new)) }
    {
        if self.history.is_broken() {
            return Err(EngineError::Broken);
        }
        let Some(found) = self.history.flow().enabled(moment) else {
            return Ok(false);
        };
        self.append_move(site, found, moment)?;
        Ok(true)
    }

    /// Appends the Reply of a parcel's issue with the status, the rule number and the text that its bytes read as. False, and nothing
    /// changed, exactly where the parcel is no reply of this run from the filter of a waiting issue, or its bytes are no response
    /// with a status other than 102 (OpenC2 Language 1.0, section 3.2).
    pub fn reply<S: Site>(
        &mut self,
        site: &mut S,
        parcel: &Parcel,
        moment: u64,
    ) -> Result<bool, EngineError>
        requires small { length parcel.now.bytes ≤ 1_048_576 }
        requires in_time { is_in_time self.old.history.seen moment ≡ true }
        requires ready { IsReady self.old.history (S.view site.old) }
        ensures ready { IsReady self.new.history (S.view site.new) }
        ensures replied { result ≡ Ok true
            → Appends self.old self.new (IsReply self.old.history parcel.now moment) (S.view site.old) (S.view site.new) }
        ensures ignored { result ≡ Ok false → (read : Answer) → IsReplyTo self.old.history parcel.now read → ⊥ }
        ensures ignored_whole { result ≡ Ok false → self.old.history.broken ≡ false }
        ensures ignored_stays { result ≡ Ok false → (self.new ≡ self.old) × (site.new ≡ site.old) }
        ensures refused { IfErr result (λ error. Refused self.old self.new (IsReply self.old.history parcel.now moment) error
            (S.view site.old) (S.view site.new)) }
    {
        if self.history.is_broken() {
            return Err(EngineError::Broken);
        }
        if !self.is_from_filter(parcel) {
            return Ok(false);
        }
        let found = final_answer(self.alloc, parcel.bytes.as_slice())?;
        let Some(read) = found else {
            return Ok(false);
        };
        let next = self.reply_record(parcel, read, moment)?;
        self.append(site, next)?;
        Ok(true)
    }

    /// Appends the Expire of an issue that waits, that was put since the opening, and whose deadline is not after the moment.
    pub fn expire<S: Site>(
        &mut self,
        site: &mut S,
        issue: u32,
        moment: u64,
    ) -> Result<(), EngineError>
        requires put { IsSome (puts_of self.old.puts issue) }
        requires due { (it : Issue) → slice_get self.old.history.seen.lists.issues issue ≡ Some it
            → deadline_of self.old.history.seen it ≤ moment }
        requires in_time { is_in_time self.old.history.seen moment ≡ true }
        requires ready { IsReady self.old.history (S.view site.old) }
        ensures ready { IsReady self.new.history (S.view site.new) }
        ensures ok { OnOk result (Appends self.old self.new (Is (entry.Expire issue moment)) (S.view site.old) (S.view site.new)) }
        ensures refused { IfErr result (λ error. Refused self.old self.new (Is (entry.Expire issue moment)) error
            (S.view site.old) (S.view site.new)) }
    {
        if self.history.is_broken() {
            return Err(EngineError::Broken);
        }
        self.may_expire(issue, moment);
        let next = Record::Expire { issue, moment };
        self.append(site, next)
    }

    /// Appends the Upgrade of a run that has begun, has not ended and is not upgraded: it goes on with operators.
    pub fn upgrade<S: Site>(&mut self, site: &mut S, moment: u64) -> Result<(), EngineError>
        requires begun { self.old.history.records ≢ [] }
        requires goes_on { outcome self.old.history.seen.lists ≡ None }
        requires earlier { self.old.history.seen.lists.is_upgraded ≡ false }
        requires in_time { is_in_time self.old.history.seen moment ≡ true }
        requires ready { IsReady self.old.history (S.view site.old) }
        ensures ready { IsReady self.new.history (S.view site.new) }
        ensures ok { OnOk result (Appends self.old self.new (Is (entry.Upgrade 2 moment)) (S.view site.old) (S.view site.new)) }
        ensures refused { IfErr result (λ error. Refused self.old self.new (Is (entry.Upgrade 2 moment)) error
            (S.view site.old) (S.view site.new)) }
    {
        if self.history.is_broken() {
            return Err(EngineError::Broken);
        }
        self.may_upgrade(moment);
        let next = Record::Upgrade { version: 2, moment };
        self.append(site, next)
    }

    /// The answer of an operator may end an issue that waits, of a filter or of an operator, once the run is upgraded. A moment is in
    /// time from that of the last record on, up to 9,000,000,000,000,000; so that of an Upgrade is for the answer behind it. The
    /// call does nothing.
    pub fn can_tell(&self, issue: u32, told: &OperatorAnswer, moment: u64)
        requires waits { (it : Issue) × (slice_get self.now.history.seen.lists.issues issue ≡ Some it)
            × (is_waiting it.phase ≡ true) }
        requires upgraded { self.now.history.seen.lists.is_upgraded ≡ true }
        requires in_time { is_in_time self.now.history.seen moment ≡ true }
        requires good { IsOperatorAnswer told.now }
        ensures { IsSome (taken (flow_of self.now.history) (entry.Told issue moment told.now.status told.now.text)) }
    {
        self.stand();
        runs_are_sane();
        waiting_can_end();
    }

    /// Appends what an operator told of an issue, with a status other than 102 and a text of at most 4,096 bytes of UTF-8, where
    /// that may come next.
    pub fn told<S: Site>(
        &mut self,
        site: &mut S,
        issue: u32,
        status: u16,
        text: &Bytes,
        moment: u64,
    ) -> Result<(), EngineError>
        requires comes { IsSome (taken (flow_of self.old.history) (entry.Told issue moment status text.now)) }
        requires ready { IsReady self.old.history (S.view site.old) }
        ensures ready { IsReady self.new.history (S.view site.new) }
        ensures ok { OnOk result (Appends self.old self.new (Is (entry.Told issue moment status text.now)) (S.view site.old) (S.view site.new)) }
        ensures refused { IfErr result (λ error. Refused self.old self.new (Is (entry.Told issue moment status text.now)) error
            (S.view site.old) (S.view site.new)) }
    {
        if self.history.is_broken() {
            return Err(EngineError::Broken);
        }
        self.may_tell(issue, status, text, moment);
        let next = Record::Told {
            issue,
            moment,
            status,
            text: text.copy(self.alloc)?,
        };
        self.append(site, next)
    }
}
