// Texts in parts, and addresses.
ghost use Rattle.std.specs.Prelude.{◌≡◌, ◌<◌, ◌∷◌, [], MatchOption};
ghost use Rattle.oc2_nets.specs.Texts.{parts};
ghost use Rattle.oc2_nets.specs.Ipv4.{address4};
ghost use Rattle.oc2_nets.specs.Ipv6.{address6};

use std::net::{Ipv4Addr, Ipv6Addr};

/// What stands before the first separator, and what stands behind it.
pub fn cut(text: &str, separator: char) -> Option<(&str, &str)>
    requires { separator < 128 }
    ensures { MatchOption result (parts separator text.now ≡ text.now ∷ [])
        (λ found. parts separator text.now ≡ found.0.now ∷ parts separator found.1.now) }
{
    text.split_once(separator)
}

/// The 32 bits of an IPv4 address, the most significant first.
pub fn read_address4(text: &str) -> Option<u32>
    ensures { result ≡ address4 text.now }
{
    match text.parse::<Ipv4Addr>() {
        Ok(address) => Some(address.to_bits()),
        Err(_) => None,
    }
}

/// The 128 bits of an IPv6 address, the most significant first.
pub fn read_address6(text: &str) -> Option<u128>
    ensures { result ≡ address6 text.now }
{
    // std takes an IPv4 address at the end.
    if text.contains('.') {
        return None;
    }
    match text.parse::<Ipv6Addr>() {
        Ok(address) => Some(address.to_bits()),
        Err(_) => None,
    }
}
