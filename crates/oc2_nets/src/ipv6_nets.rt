// IPv6 nets.
ghost use Rattle.std.specs.Prelude.{◌≡◌, ◌≤◌};
ghost use Rattle.oc2_nets.specs.Bits.{cleared, IsCleared};

use crate::packets::Address;

/// An IPv6 net: the addresses whose first `width` bits are those of `bits`.
#[derive(Clone, Copy, PartialEq, Eq, PartialOrd, Ord)]
pub struct Net6 {
    /// The address of 128 bits; every bit past the width is 0.
    pub bits: u128,
    /// How many bits count, from 0 to 128.
    pub width: u8,
    pub ghost in_range: { width ≤ 128 },
    pub ghost host_bits: { IsCleared 128 bits width },
}

/// The address with every bit past the width cleared.
fn clear(address: u128, width: u8) -> u128
    requires { width ≤ 128 }
    ensures { result ≡ cleared 128 address width }
{
    if width == 0 {
        return 0;
    }
    let host = 128 - width;
    address >> host << host
}

impl Net6 {
    ghost use Rattle.oc2_nets.specs.Nets.{net6, lies6};

    /// The net of an address. Its bits past the width are cleared.
    pub fn new(address: u128, width: u8) -> Net6
        requires { width ≤ 128 }
        ensures { result ≡ net6 address width }
    {
        Net6 {
            bits: clear(address, width),
            width,
        }
    }

    /// Whether an address is of this family and lies in the net.
    pub fn contains(&self, address: Address) -> bool
        ensures { result ≡ lies6 self.now address }
    {
        match address {
            Address::V6(bits) => clear(bits, self.width) == self.bits,
            Address::V4(_) => false,
        }
    }
}
