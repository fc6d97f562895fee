// A link that carries bytes.
ghost use Rattle.std.specs.Prelude.{◌≡◌, ◌≢◌, ◌≤◌, [], take, drop, length, IfOk, OnOk, OnErr};
ghost use Rattle.cacao_site.specs.Counts.{next_count};
ghost use Rattle.oc2_wire_link.specs.Links.{LinkView, KeepsBytes, Sends, Receives};

use cacao_site::Failed;

/// A link to another process, which carries bytes both ways, in order. Each call may wait for the peer.
///
/// A call that fails counts one fault and moves no byte, and one that is Ok counts none.
pub trait Link {
    /// What contracts see of the link.
    ghost view: { Self → LinkView };

    /// Hands the front of the bytes to the link, and answers how many of them went out: at least one where there are any.
    fn send(&mut self, bytes: &[u8]) -> Result<u32, Failed>
        ensures count { IfOk result (λ n. n ≤ length bytes.now) }
        ensures some { IfOk result (λ n. bytes.now ≢ [] → 1 ≤ n) }
        ensures sends { IfOk result (λ n. Sends (take n bytes.now) (view self.old) (view self.new)) }
        ensures faultless { OnOk result ((view self.new).faults ≡ (view self.old).faults) }
        ensures cause { OnErr result ((view self.new).faults ≡ next_count (view self.old).faults) }
        ensures failed { OnErr result (KeepsBytes (view self.old) (view self.new)) };

    /// Fills the front of `into` with the bytes that come next, and answers their number. What lies behind them in `into`
    /// stays. None on a slice that isn't empty is the end: no told byte is still to come.
    fn receive(&mut self, into: &mut [u8]) -> Result<u32, Failed>
        ensures count { IfOk result (λ n. n ≤ length into.old) }
        ensures receives { IfOk result (λ n. Receives (take n into.new) (into.old ≢ []) (view self.old) (view self.new)) }
        ensures behind { IfOk result (λ n. drop n into.new ≡ drop n into.old) }
        ensures faultless { OnOk result ((view self.new).faults ≡ (view self.old).faults) }
        ensures cause { OnErr result ((view self.new).faults ≡ next_count (view self.old).faults) }
        ensures failed { OnErr result (KeepsBytes (view self.old) (view self.new)) };
}
