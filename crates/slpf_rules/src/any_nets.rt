// Nets of either family, in the order of the index.
ghost use Rattle.std.specs.Prelude.{refl};
ghost use Rattle.std.specs.Cmp;
ghost use Rattle.std.specs.Ordering.{as_partial_cmp, eq_by_cmp};
ghost use Rattle.slpf_rules.specs.AnyNets.{net_cmp};
ghost use Rattle.slpf_rules.specs.AnyNetOrder.{net_cmp_total, net_eq_equiv, net_ties, net_partial_order};

use oc2_nets::{Net4, Net6};
use std::cmp::Ordering;

/// A net of either family. IPv4 nets come before IPv6 nets; nets of one family rise by their bits, and equal bits by
/// the width.
#[derive(Clone, Copy)]
pub enum AnyNet {
    V4(Net4),
    V6(Net6),
}

impl PartialEq for AnyNet {
    ghost eq = { eq_by_cmp net_cmp };

    ghost laws = { Cmp.partial_equiv_from_equiv net_eq_equiv };

    fn eq(&self, other: &AnyNet) -> bool {
        self.cmp(other) == Ordering::Equal
    }
}

impl Eq for AnyNet {
    ghost laws = { net_eq_equiv };
}

impl PartialOrd for AnyNet {
    ghost partial_cmp = { as_partial_cmp net_cmp };

    ghost laws = { net_partial_order };

    fn partial_cmp(&self, other: &AnyNet) -> Option<Ordering> {
        Some(self.cmp(other))
    }
}

impl Ord for AnyNet {
    ghost cmp = { net_cmp };

    ghost total = { net_cmp_total };

    ghost matches_partial_cmp = { λ x y. refl };

    ghost matches_eq = { net_ties };

    fn cmp(&self, other: &AnyNet) -> Ordering {
        match (self, other) {
            (AnyNet::V4(a), AnyNet::V4(b)) => a.bits.cmp(&b.bits).then(a.width.cmp(&b.width)),
            (AnyNet::V6(a), AnyNet::V6(b)) => a.bits.cmp(&b.bits).then(a.width.cmp(&b.width)),
            (AnyNet::V4(_), AnyNet::V6(_)) => Ordering::Less,
            (AnyNet::V6(_), AnyNet::V4(_)) => Ordering::Greater,
        }
    }
}
