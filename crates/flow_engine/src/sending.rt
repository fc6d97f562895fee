// The sending of commands.
ghost use Rattle.std.specs.Prelude.{◌≡◌, ◌⊎◌, ◌<◌, true, false, Some, IfOk, OnOk, OnErr, IsErrOf, length, slice_get};
ghost use Rattle.flow_core_rules.specs.Changes.{is_in_time};
ghost use Rattle.flow_core_rules.specs.declared.issues.Issue.{Issue};
ghost use Rattle.flow_engine_history.specs.HistoryView.{IsReady};
ghost use Rattle.flow_engine.specs.EngineCalls.{IsWaiting, Sends, command_of};

use crate::engine::Engine;
use cacao_site::{Bytes, Parcel, Site};
use flow_core_rules::issues_have_records;
use flow_engine_history::{EngineError, accepted_is_runnable};
use std::alloc::AllocError;

impl Engine {
    /// The command of an issue.
    fn command(&self, issue: u32) -> Result<Parcel, AllocError>
        requires { issue < length self.now.history.seen.lists.issues }
        ensures { IfOk result (λ parcel. (it : Issue) → slice_get self.now.history.seen.lists.issues issue ≡ Some it
            → parcel ≡ command_of self.now.history issue it) }
    {
        let flow = self.flow();
        Ok(Parcel {
            agent: flow.agent_of(issue),
            back: false,
            run: flow.run(),
            issue,
            bytes: Bytes::from_slice(self.alloc, flow.bytes_of(issue))?,
        })
    }

    /// Puts the command of an issue of a filter that waits, and counts the put. It is put again where it was put before: its filter
    /// acts on it once.
    pub fn send<S: Site>(
        &mut self,
        site: &mut S,
        issue: u32,
        moment: u64,
    ) -> Result<(), EngineError>
        requires waiting { (it : Issue) × IsWaiting self.old.history.seen issue it }
        requires in_time { is_in_time self.old.history.seen moment ≡ true }
        requires ready { IsReady self.old.history (S.view site.old) }
        ensures ready { IsReady self.new.history (S.view site.new) }
        ensures ok { OnOk result (Sends self.old self.new issue moment (S.view site.old) (S.view site.new)) }
        ensures broken { IsErrOf result EngineError.Broken → self.old.history.broken ≡ true }
        ensures memory { IsErrOf result EngineError.Memory → self.old.history.broken ≡ false }
        ensures no_other { OnErr result ((IsErrOf result EngineError.Broken) ⊎ (IsErrOf result EngineError.Memory)) }
        ensures stays { OnErr result ((self.new ≡ self.old) × (site.new ≡ site.old)) }
    {
        if self.history.is_broken() {
            return Err(EngineError::Broken);
        }
        self.history.law();
        self.stand();
        accepted_is_runnable();
        issues_have_records();
        let parcel = self.command(issue)?;
        self.puts.put(issue, moment)?;
        site.put(parcel);
        Ok(())
    }
}
