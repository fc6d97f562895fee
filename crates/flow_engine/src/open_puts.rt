// The waiting issues that were put.
ghost use Rattle.std.specs.Prelude.{◌≡◌, ◌+◌, ◌<◌, ◌≤◌, ◌==◌, ℕ, min, nat_eq, false, [], IfSome, OnOk, OnErr, if◌then◌else◌};
ghost use Rattle.indexmap.specs.IndexMap.{swap_remove_entry};
ghost use Rattle.run_records.specs.Ranges.{last_moment};
ghost use Rattle.flow_core_rules.specs.Laws.{ended_by};
ghost use Rattle.base_dues.specs.Pairs.{at};
ghost use Rattle.flow_engine.specs.KeptPuts.{AreCounted, IsCounted};
ghost use Rattle.flow_engine.specs.OpenIssues.{count_of, most_puts, puts_of, resend_of, with_put, without_ended, IsNextPut};

use crate::puts::Puts;
use base_dues::Dues;
use indexmap::IndexMap;
use run_records::Record;
use std::alloc::{AllocError, Global};
use std::marker::Model;

/// The most puts of an issue that are counted: the first one, and eight resends.
const MOST_PUTS: u32 = 9;

/// The milliseconds between two puts of an issue.
const RESEND_AFTER: u64 = 5_000;

/// Issues by number, each with its puts, and the moments of their next puts.
#[derive(Drop)]
pub(crate) struct OpenPuts {
    map: IndexMap<u32, Puts>,
    resends: Dues,
}

impl Model for OpenPuts {
    ghost use Rattle.flow_engine.specs.OpenIssues.{OpenIssues};

    ghost Value = { OpenIssues };

    ghost use Rattle.flow_engine.specs.KeptPuts.{IsKept};

    ghost view = { λ o. o.map.entries };

    ghost invariant = { IsKept };
}

/// The issue that a record ends, if it ends one.
fn ended_by(item: &Record) -> Option<u32>
    ensures { result ≡ ended_by item.now }
{
    match item {
        Record::Reply { issue, .. } => Some(*issue),
        Record::Told { issue, .. } => Some(*issue),
        Record::Expire { issue, .. } => Some(*issue),
        _ => None,
    }
}

/// The moment of the next put of an issue, where it has one left.
fn resend_of(puts: Puts) -> Option<u64>
    requires { IsCounted puts }
    ensures { result ≡ resend_of puts }
{
    if puts.count < MOST_PUTS {
        Some(puts.last + RESEND_AFTER)
    } else {
        None
    }
}

/// Sets or takes out the moment of an issue.
fn set(dues: &mut Dues, issue: u32, moment: Option<u64>)
    requires { issue < dues.old.room }
    ensures { (n : ℕ) → at dues.new.pairs n ≡ (if n == issue then moment else at dues.old.pairs n) }
{
    match moment {
        Some(moment) => dues.insert(moment, issue),
        None => dues.remove(issue),
    }
}

impl OpenPuts {
    /// No issue. It takes no memory.
    pub(crate) fn new(alloc: Global) -> OpenPuts
        ensures { result ≡ [] }
    {
        OpenPuts {
            map: IndexMap::new(alloc),
            resends: Dues::new(alloc),
        }
    }

    /// The issues, each with its puts.
    pub(crate) fn as_map(&self) -> &IndexMap<u32, Puts>
        ensures entries { result.now.entries ≡ self.now }
        ensures counted { AreCounted self.now }
    {
        &self.map
    }

    /// The puts of an issue, where it is there.
    pub(crate) fn get(&self, issue: u32) -> Option<Puts>
        ensures puts { result ≡ puts_of self.now issue }
        ensures counted { IfSome result IsCounted }
    {
        self.map.get(&issue).copied()
    }

    /// How often an issue was put, with one put more.
    fn next_count(&self, issue: u32) -> u32
        ensures { result ≡ min most_puts (count_of self.now issue + 1) }
    {
        match self.get(issue) {
            Some(puts) => (puts.count + 1).min(MOST_PUTS),
            None => 1,
        }
    }

    /// Counts a put of an issue at a moment, in milliseconds. A refusal changes nothing.
    pub(crate) fn put(&mut self, issue: u32, moment: u64) -> Result<(), AllocError>
        requires number { issue < 4_294_967_295 }
        requires in_time { moment ≤ last_moment }
        ensures ok { OnOk result (self.new ≡ with_put self.old issue moment) }
        ensures others { OnOk result ((n : ℕ) → nat_eq issue n ≡ false → puts_of self.new n ≡ puts_of self.old n) }
        ensures counted { OnOk result (AreCounted self.new) }
        ensures err { OnErr result (self.new ≡ self.old) }
    {
        let puts = Puts {
            last: moment,
            count: self.next_count(issue),
        };
        self.resends.reserve(issue + 1)?;
        self.map.insert(issue, puts)?;
        set(&mut self.resends, issue, resend_of(puts));
        Ok(())
    }

    /// Takes out an issue.
    fn take_out(&mut self, issue: u32)
        ensures { self.new ≡ swap_remove_entry (nat_eq issue) self.old }
    {
        self.map.swap_remove(&issue);
        self.resends.remove(issue);
    }

    /// Takes out the issue that a record ends, if it ends one. It takes no memory.
    pub(crate) fn end(&mut self, item: &Record)
        ensures { self.new ≡ without_ended self.old item.now }
    {
        match ended_by(item) {
            Some(issue) => self.take_out(issue),
            None => {}
        }
    }

    /// The moment, in milliseconds, and the issue of the next resend.
    pub(crate) fn next(&self) -> Option<(u64, u32)>
        ensures { IsNextPut self.now result }
    {
        self.resends.law();
        self.resends.first()
    }
}
