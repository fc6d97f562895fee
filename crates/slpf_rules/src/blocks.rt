// Which widths of IPv6 nets are looked up.
ghost use Rattle.std.specs.Prelude.{◌≡◌, ◌≤◌, ◌+◌, ◌<◌, ◌*◌, ℕ, false, true};
ghost use Rattle.std.specs.Bool.{OnFalse};
ghost use Rattle.oc2_nets.specs.Nets.{net6};
ghost use Rattle.slpf_rules.specs.Blocks.{is_used};
ghost use Rattle.slpf_rules.specs.declared.any_nets.AnyNet.{AnyNet};
ghost use Rattle.slpf_rules.specs.declared.any_nets.AnyNet.TheVariants.{V6};

use crate::any_nets::AnyNet;

/// Of each 16 widths from 0 on, whether an IPv6 net of one of them was filed since the table was empty. A decision passes over
/// those of which none was.
#[derive(Clone, Copy)]
pub(crate) struct Blocks {
    used: [bool; 9],
}

impl Blocks {
    /// No net was filed.
    pub(crate) fn new() -> Blocks {
        Blocks { used: [false; 9] }
    }

    /// Notes the width of a net.
    pub(crate) fn note(&mut self, net: &AnyNet)
        ensures noted { is_used self.new net.now ≡ true }
        ensures kept { (other : AnyNet) → is_used self.new other ≡ false → is_used self.old other ≡ false }
    {
        match net {
            AnyNet::V4(_) => (),
            AnyNet::V6(net) => self.used[net.width as usize / 16] = true,
        }
    }

    /// Whether a net of one of 16 widths was filed.
    pub(crate) fn has(&self, block: u8) -> bool
        requires { block ≤ 8 }
        ensures { OnFalse result ((address width : ℕ) → block * 16 ≤ width → width < block * 16 + 16 → width ≤ 128
            → is_used self.now (V6 (net6 address width)) ≡ false) }
    {
        self.used[block as usize]
    }
}
