// How many nets of each width an index has.
ghost use Rattle.std.specs.Prelude.{◌≡◌, ℕ, slice_index, ◌+◌, ◌<◌, ◌≤◌, ◌^◌, if◌then◌else◌};
ghost use Rattle.slpf_rules.specs.Widths.{count_at, has_width_of};
ghost use Rattle.slpf_rules.specs.declared.any_nets.AnyNet.{AnyNet};

use crate::any_nets::AnyNet;

/// How many nets of each width there are, of either family.
#[derive(Clone, Copy)]
pub(crate) struct Widths {
    pub(crate) v4: [u64; 33],
    pub(crate) v6: [u64; 129],
}

fn zeros4() -> [u64; 33]
    ensures { (width : ℕ) → slice_index result width ≡ 0 }
{
    [0; 33]
}

fn zeros6() -> [u64; 129]
    ensures { (width : ℕ) → slice_index result width ≡ 0 }
{
    [0; 129]
}

impl Widths {
    pub(crate) fn new() -> Widths
        ensures { (net : AnyNet) → count_at result net ≡ 0 }
    {
        Widths {
            v4: zeros4(),
            v6: zeros6(),
        }
    }

    pub(crate) fn add(&mut self, net: &AnyNet)
        requires { count_at self.old net.now + 1 < 2 ^ 64 }
        ensures { (other : AnyNet) → count_at self.new other
            ≡ count_at self.old other + (if has_width_of other net.now then 1 else 0) }
    {
        match net {
            AnyNet::V4(net) => self.v4[net.width as usize] += 1,
            AnyNet::V6(net) => self.v6[net.width as usize] += 1,
        }
    }

    pub(crate) fn remove(&mut self, net: &AnyNet)
        requires { 1 ≤ count_at self.old net.now }
        ensures { (other : AnyNet) → count_at self.new other
            + (if has_width_of other net.now then 1 else 0) ≡ count_at self.old other }
    {
        match net {
            AnyNet::V4(net) => self.v4[net.width as usize] -= 1,
            AnyNet::V6(net) => self.v6[net.width as usize] -= 1,
        }
    }
}
