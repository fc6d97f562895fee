// IPv4 nets.
ghost use Rattle.std.specs.Prelude.{◌≡◌, ◌≤◌};
ghost use Rattle.oc2_nets.specs.Bits.{cleared, IsCleared};

use crate::packets::Address;

/// An IPv4 net: the addresses whose first `width` bits are those of `bits`.
#[derive(Clone, Copy, PartialEq, Eq, PartialOrd, Ord)]
pub struct Net4 {
    /// The address of 32 bits; every bit past the width is 0.
    pub bits: u32,
    /// How many bits count, from 0 to 32.
    pub width: u8,
    pub ghost in_range: { width ≤ 32 },
    pub ghost host_bits: { IsCleared 32 bits width },
}

/// The address with every bit past the width cleared.
fn clear(address: u32, width: u8) -> u32
    requires { width ≤ 32 }
    ensures { result ≡ cleared 32 address width }
{
    if width == 0 {
        return 0;
    }
    let host = 32 - width;
    address >> host << host
}

impl Net4 {
    ghost use Rattle.oc2_nets.specs.Nets.{net4, lies4};

    /// The net of an address. Its bits past the width are cleared.
    pub fn new(address: u32, width: u8) -> Net4
        requires { width ≤ 32 }
        ensures { result ≡ net4 address width }
    {
        Net4 {
            bits: clear(address, width),
            width,
        }
    }

    /// Whether an address is of this family and lies in the net.
    pub fn contains(&self, address: Address) -> bool
        ensures { result ≡ lies4 self.now address }
    {
        match address {
            Address::V4(bits) => clear(bits, self.width) == self.bits,
            Address::V6(_) => false,
        }
    }
}
