// Peers in memory.
ghost use Rattle.std.specs.Prelude.{◌≡◌, ◌≤◌, ◌∷◌, Some, option_map, IfOk, OnOk, OnErr};
ghost use Rattle.std.specs.Result.{is_err};
ghost use Rattle.cacao_site.specs.Counts.{count_after, next_count};
ghost use Rattle.oc2_wire_link.specs.Peering.{Counts, IsAsTold, accepted, bound, closed, no_calls, started};
ghost use Rattle.oc2_wire_memory.specs.MemoryLink.{link_view};

use crate::failing::is_listed;
use crate::link::MemoryLink;
use crate::plan::MemoryLinks;
use cacao_site::Failed;
use cacao_site_memory::CallList;
use oc2_wire_link::Peers;
use std::collections::VecDeque;

/// Peers that hand out the links that they were given, and keep the one that was closed last. Their calls are numbered together
/// from 0. They take no memory.
#[derive(Drop)]
pub struct MemoryPeers {
    links: VecDeque<MemoryLink>,
    back: Option<MemoryLink>,
    failing: CallList,
    calls: u64,
    starts: u64,
    binds: u64,
    accepts: u64,
    closes: u64,
    faults: u64,
}

impl MemoryPeers {
    ghost use Rattle.std.specs.Prelude.{None};
    ghost use Rattle.oc2_wire_memory.specs.MemoryPeers.{CallsOnce, back_of, calls_of, failing_of, fails_by_plan, first_of, links_of, peers_view};

    /// Peers with these links, whose calls of these numbers fail.
    pub fn new(links: MemoryLinks, failing: CallList) -> MemoryPeers
        ensures links { links_of result ≡ links }
        ensures failing { failing_of result ≡ failing }
        ensures calls { calls_of result ≡ 0 }
        ensures view { peers_view result ≡ record { calls = Some no_calls; faults = 0; port = Some 1; next = first_of links; back = None } }
    {
        MemoryPeers {
            links: VecDeque::from(links.into_vec()),
            back: None,
            failing,
            calls: 0,
            starts: 0,
            binds: 0,
            accepts: 0,
            closes: 0,
            faults: 0,
        }
    }

    /// The link that was closed last, as it was then.
    pub fn closed(&self) -> Option<&MemoryLink>
        ensures { option_map (λ link. link.now) result ≡ back_of self.now }
    {
        self.back.as_ref()
    }

    /// Counts a call, and answers whether it fails by its number.
    fn count_call(&mut self) -> bool
        ensures fails { result ≡ fails_by_plan self.old }
        ensures once { CallsOnce self.old self.new }
        ensures view { peers_view self.new ≡ peers_view self.old }
        ensures links { links_of self.new ≡ links_of self.old }
        ensures back { back_of self.new ≡ back_of self.old }
    {
        let fails = is_listed(&self.failing, self.calls);
        self.calls = self.calls.saturating_add(1);
        fails
    }

    /// Counts a fault.
    fn fail(&mut self) -> Failed
        ensures calls { (peers_view self.new).calls ≡ (peers_view self.old).calls }
        ensures faults { (peers_view self.new).faults ≡ next_count (peers_view self.old).faults }
        ensures links { links_of self.new ≡ links_of self.old }
        ensures back { back_of self.new ≡ back_of self.old }
        ensures failing { failing_of self.new ≡ failing_of self.old }
        ensures number { calls_of self.new ≡ calls_of self.old }
    {
        self.faults = self.faults.saturating_add(1);
        Failed
    }
}

impl Peers for MemoryPeers {
    ghost use Rattle.oc2_wire_memory.specs.MemoryPeers.{CallsOnce, back_of, fails_by_plan, fails_to_link, links_of, peers_view};

    type Out = MemoryLink;

    ghost view = { peers_view };

    /// Hands out the next link. It fails exactly where its number is in the plan, or where no link is left.
    fn start(&mut self) -> Result<MemoryLink, Failed>
        ensures counts { Counts started (peers_view self.old).calls (peers_view self.new).calls }
        ensures faultless { OnOk result ((peers_view self.new).faults ≡ (peers_view self.old).faults) }
        ensures cause { OnErr result ((peers_view self.new).faults ≡ next_count (peers_view self.old).faults) }
        ensures by_plan { is_err result ≡ fails_to_link self.old }
        ensures gives { IfOk result (λ link. IsAsTold (peers_view self.old).next (link_view link)) }
        ensures first { IfOk result (λ link. links_of self.old ≡ link ∷ links_of self.new) }
        ensures left { OnErr result (links_of self.new ≡ links_of self.old) }
        ensures once { CallsOnce self.old self.new }
    {
        self.starts = self.starts.saturating_add(1);
        if self.count_call() {
            return Err(self.fail());
        }
        match self.links.pop_front() {
            Some(link) => Ok(link),
            None => Err(self.fail()),
        }
    }

    /// Answers port 1. It fails exactly where its number is in the plan.
    fn bind(&mut self) -> Result<u16, Failed>
        ensures counts { Counts bound (peers_view self.old).calls (peers_view self.new).calls }
        ensures port { IfOk result (λ port. 1 ≤ port) }
        ensures faultless { OnOk result ((peers_view self.new).faults ≡ (peers_view self.old).faults) }
        ensures cause { OnErr result ((peers_view self.new).faults ≡ next_count (peers_view self.old).faults) }
        ensures by_plan { is_err result ≡ fails_by_plan self.old }
        ensures one { IfOk result (λ port. port ≡ 1) }
        ensures told { IfOk result (IsAsTold (peers_view self.new).port) }
        ensures next { (peers_view self.new).next ≡ (peers_view self.old).next }
        ensures left { links_of self.new ≡ links_of self.old }
        ensures once { CallsOnce self.old self.new }
    {
        self.binds = self.binds.saturating_add(1);
        if self.count_call() {
            return Err(self.fail());
        }
        Ok(1)
    }

    /// Hands out the next link. It fails exactly where its number is in the plan, or where no link is left.
    fn accept(&mut self) -> Result<MemoryLink, Failed>
        ensures counts { Counts accepted (peers_view self.old).calls (peers_view self.new).calls }
        ensures faultless { OnOk result ((peers_view self.new).faults ≡ (peers_view self.old).faults) }
        ensures cause { OnErr result ((peers_view self.new).faults ≡ next_count (peers_view self.old).faults) }
        ensures by_plan { is_err result ≡ fails_to_link self.old }
        ensures gives { IfOk result (λ link. IsAsTold (peers_view self.old).next (link_view link)) }
        ensures first { IfOk result (λ link. links_of self.old ≡ link ∷ links_of self.new) }
        ensures left { OnErr result (links_of self.new ≡ links_of self.old) }
        ensures once { CallsOnce self.old self.new }
    {
        self.accepts = self.accepts.saturating_add(1);
        if self.count_call() {
            return Err(self.fail());
        }
        match self.links.pop_front() {
            Some(link) => Ok(link),
            None => Err(self.fail()),
        }
    }

    /// Keeps the link, whose faults are counted, in place of the one that was closed before. It fails exactly where its number is in the plan.
    fn close(&mut self, link: MemoryLink) -> Result<(), Failed>
        ensures counts { Counts closed (peers_view self.old).calls (peers_view self.new).calls }
        ensures faults { OnOk result ((peers_view self.new).faults ≡ count_after (peers_view self.old).faults link.faults) }
        ensures cause { OnErr result
            ((peers_view self.new).faults ≡ next_count (count_after (peers_view self.old).faults link.faults)) }
        ensures takes { back_of self.new ≡ Some link }
        ensures by_plan { is_err result ≡ fails_by_plan self.old }
        ensures left { links_of self.new ≡ links_of self.old }
        ensures once { CallsOnce self.old self.new }
    {
        self.closes = self.closes.saturating_add(1);
        self.faults = self.faults.saturating_add(link.faults);
        self.back = Some(link);
        if self.count_call() {
            return Err(self.fail());
        }
        Ok(())
    }
}
