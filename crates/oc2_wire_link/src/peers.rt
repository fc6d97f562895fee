// The peers of a program.
ghost use Rattle.std.specs.Prelude.{◌≡◌, ◌≤◌, IfOk, OnOk, OnErr};
ghost use Rattle.cacao_site.specs.Counts.{count_after, next_count};
ghost use Rattle.oc2_wire_link.specs.Peering.{Counts, IsAsTold, PeersView, accepted, bound, closed, started};

use crate::link::Link;
use cacao_site::Failed;

/// How a program comes to a link: it starts its peer, or it is the peer that was started.
///
/// Each call may wait for the peer, and is counted, also where it fails. A call that fails counts one fault, and one that
/// is Ok counts none; `close` adds the faults of the link.
pub trait Peers {
    /// A link need not be `Drop`: then what `start` or `accept` gave has to be closed.
    type Out: Link;

    /// What contracts see of the peers.
    ghost view: { Self → PeersView };

    /// Starts this program with the word `filters`, reads its line `port P`, and connects to it at 127.0.0.1.
    fn start(&mut self) -> Result<Self::Out, Failed>
        ensures counts { Counts started (view self.old).calls (view self.new).calls }
        ensures gives { IfOk result (λ link. IsAsTold (view self.old).next (Self.Out.view link)) }
        ensures faultless { OnOk result ((view self.new).faults ≡ (view self.old).faults) }
        ensures cause { OnErr result ((view self.new).faults ≡ next_count (view self.old).faults) };

    /// Listens at 127.0.0.1, and answers the port, which isn't 0.
    fn bind(&mut self) -> Result<u16, Failed>
        ensures counts { Counts bound (view self.old).calls (view self.new).calls }
        ensures port { IfOk result (λ port. 1 ≤ port) }
        ensures told { IfOk result (IsAsTold (view self.new).port) }
        ensures next { (view self.new).next ≡ (view self.old).next }
        ensures faultless { OnOk result ((view self.new).faults ≡ (view self.old).faults) }
        ensures cause { OnErr result ((view self.new).faults ≡ next_count (view self.old).faults) };

    /// Waits for one peer at the port, and answers the link to it.
    fn accept(&mut self) -> Result<Self::Out, Failed>
        ensures counts { Counts accepted (view self.old).calls (view self.new).calls }
        ensures gives { IfOk result (λ link. IsAsTold (view self.old).next (Self.Out.view link)) }
        ensures faultless { OnOk result ((view self.new).faults ≡ (view self.old).faults) }
        ensures cause { OnErr result ((view self.new).faults ≡ next_count (view self.old).faults) };

    /// Drops the link, and then waits for the program, if one was started here. The faults of the link become faults of
    /// the peers, and the call fails only where it could not do this.
    fn close(&mut self, link: Self::Out) -> Result<(), Failed>
        ensures counts { Counts closed (view self.old).calls (view self.new).calls }
        ensures takes { IsAsTold (view self.new).back (Self.Out.view link) }
        ensures faults { OnOk result ((view self.new).faults ≡ count_after (view self.old).faults (Self.Out.view link).faults) }
        ensures cause { OnErr result
            ((view self.new).faults ≡ next_count (count_after (view self.old).faults (Self.Out.view link).faults)) };
}
