// A link in memory.
ghost use Rattle.std.specs.Prelude.{◌≡◌, ◌≢◌, ◌+◌, ◌≤◌, ◌++◌, [], length, take, drop, min, vec_len, vec_capacity, not, nat_lt, IsTrue, IfOk, OnOk, OnErr};
ghost use Rattle.std.specs.Result.{is_err};
ghost use Rattle.cacao_site.specs.Counts.{next_count};
ghost use Rattle.oc2_wire_link.specs.Links.{KeepsBytes, Receives, Sends};
ghost use Rattle.oc2_wire_memory.specs.Pieces.{front_for, piece_left};

use crate::failing::is_listed;
use crate::incoming::Incoming;
use crate::plan::Pieces;
use cacao_site::Failed;
use cacao_site_memory::CallList;
use oc2_wire_link::Link;
use std::alloc::{AllocError, Global};

/// A link that keeps what is sent, and that gives what it was told would come. Its calls are numbered together from 0. It takes no
/// memory once it is made.
#[derive(Drop)]
pub struct MemoryLink {
    pub(crate) incoming: Incoming,
    sent: Vec<u8>,
    room: u64,
    failing: CallList,
    calls: u64,
    pub(crate) faults: u64,
    ghost kept: { vec_len sent ≤ room },
    ghost has_room: { room ≤ vec_capacity sent },
}

/// Adds the bytes, for which there is room.
fn extend_in_room(bytes: &mut Vec<u8>, more: &[u8])
    requires { vec_len bytes.old + length more.now ≤ vec_capacity bytes.old }
    ensures items { bytes.new.items ≡ bytes.old.items ++ more.now }
    ensures len { vec_len bytes.new ≡ vec_len bytes.old + length more.now }
    ensures capacity { vec_capacity bytes.old ≤ vec_capacity bytes.new }
{
    match bytes.extend_from_slice(more) {
        Ok(()) => {}
        Err(_) => unreachable!(),
    }
}

impl MemoryLink {
    ghost use Rattle.oc2_wire_memory.specs.MemoryLink.{CallsOnce, calls_of, count_of, failing_of, fails_to_receive, link_view, pieces_of, room_of, sent_of};

    /// A link over which these pieces come, with room for so many bytes to be sent, whose calls of these numbers fail.
    pub fn new(
        alloc: Global,
        pieces: Pieces,
        failing: CallList,
        room: u64,
    ) -> Result<MemoryLink, AllocError>
        ensures pieces { IfOk result (λ link. pieces_of link ≡ pieces) }
        ensures count { IfOk result (λ link. count_of link ≡ 0) }
        ensures sent { IfOk result (λ link. sent_of link ≡ []) }
        ensures room { IfOk result (λ link. room_of link ≡ room) }
        ensures failing { IfOk result (λ link. failing_of link ≡ failing) }
        ensures calls { IfOk result (λ link. calls_of link ≡ 0) }
        ensures faults { IfOk result (λ link. (link_view link).faults ≡ 0) }
    {
        let sent = Vec::with_capacity(alloc, room as usize)?;
        Ok(MemoryLink {
            incoming: Incoming::new(pieces),
            sent,
            room,
            failing,
            calls: 0,
            faults: 0,
        })
    }

    /// The bytes that were sent.
    pub fn sent(&self) -> &[u8]
        ensures { result.now ≡ sent_of self.now }
    {
        self.sent.as_slice()
    }

    /// Counts a call, and answers whether it fails by its number.
    fn count_call(&mut self) -> bool
        ensures fails { result ≡ fails_to_receive self.old }
        ensures once { CallsOnce self.old self.new }
        ensures incoming { self.new.incoming ≡ self.old.incoming }
        ensures sent { self.new.sent ≡ self.old.sent }
        ensures faults { (link_view self.new).faults ≡ (link_view self.old).faults }
    {
        let fails = is_listed(&self.failing, self.calls);
        self.calls = self.calls.saturating_add(1);
        fails
    }

    /// Whether so many bytes more can be sent.
    fn has_room_for(&self, size: usize) -> bool
        ensures fits { result ≡ not (nat_lt (room_of self.now) (length (sent_of self.now) + size)) }
        ensures slots { IsTrue result → vec_len self.now.sent + size ≤ self.now.room }
    {
        size as u64 <= self.room - self.sent.len() as u64
    }

    /// Counts a fault.
    fn fail(&mut self) -> Failed
        ensures faults { (link_view self.new).faults ≡ next_count (link_view self.old).faults }
        ensures keeps { KeepsBytes (link_view self.old) (link_view self.new) }
        ensures pieces { pieces_of self.new ≡ pieces_of self.old }
        ensures room { room_of self.new ≡ room_of self.old }
        ensures failing { failing_of self.new ≡ failing_of self.old }
        ensures calls { calls_of self.new ≡ calls_of self.old }
    {
        self.faults = self.faults.saturating_add(1);
        Failed
    }
}

impl Link for MemoryLink {
    ghost use Rattle.oc2_wire_memory.specs.MemoryLink.{CallsOnce, count_of, fails_to_receive, fails_to_send, link_view, pieces_of};

    ghost view = { link_view };

    /// Keeps the bytes. It fails exactly where its number is in the plan, or where there is no room for all that was sent.
    fn send(&mut self, bytes: &[u8]) -> Result<u32, Failed>
        ensures count { IfOk result (λ n. n ≤ length bytes.now) }
        ensures some { IfOk result (λ n. bytes.now ≢ [] → 1 ≤ n) }
        ensures sends { IfOk result (λ n. Sends (take n bytes.now) (link_view self.old) (link_view self.new)) }
        ensures faultless { OnOk result ((link_view self.new).faults ≡ (link_view self.old).faults) }
        ensures cause { OnErr result ((link_view self.new).faults ≡ next_count (link_view self.old).faults) }
        ensures failed { OnErr result (KeepsBytes (link_view self.old) (link_view self.new)) }
        ensures by_plan { is_err result ≡ fails_to_send self.old (length bytes.now) }
        ensures whole { IfOk result (λ n. n ≡ min (length bytes.now) 4_294_967_295) }
        ensures once { CallsOnce self.old self.new }
    {
        if self.count_call() || !self.has_room_for(bytes.len()) {
            return Err(self.fail());
        }
        let front = &bytes[..bytes.len().min(4_294_967_295)];
        extend_in_room(&mut self.sent, front);
        Ok(front.len() as u32)
    }

    /// Gives bytes of the first piece that is not used up, as many as go into the slice. It fails exactly where its number is in
    /// the plan.
    fn receive(&mut self, into: &mut [u8]) -> Result<u32, Failed>
        ensures count { IfOk result (λ n. n ≤ length into.old) }
        ensures receives { IfOk result (λ n. Receives (take n into.new) (into.old ≢ []) (link_view self.old) (link_view self.new)) }
        ensures behind { IfOk result (λ n. drop n into.new ≡ drop n into.old) }
        ensures faultless { OnOk result ((link_view self.new).faults ≡ (link_view self.old).faults) }
        ensures cause { OnErr result ((link_view self.new).faults ≡ next_count (link_view self.old).faults) }
        ensures failed { OnErr result (KeepsBytes (link_view self.old) (link_view self.new)) }
        ensures by_plan { is_err result ≡ fails_to_receive self.old }
        ensures bytes { IfOk result (λ n. take n into.new
            ≡ front_for (length into.old) (piece_left (count_of self.old) (pieces_of self.old))) }
        ensures once { CallsOnce self.old self.new }
    {
        if self.count_call() {
            return Err(self.fail());
        }
        Ok(self.incoming.receive(into))
    }
}
