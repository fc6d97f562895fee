// The texts of nets, both ways.
ghost use Rattle.std.specs.Prelude.{◌≡◌, ◌≤◌, IfOk, IfSome, Some, option_map};
ghost use Rattle.std.specs.String.{string_bytes};
ghost use Rattle.oc2_nets.specs.Texts.{slash, parts};
ghost use Rattle.oc2_nets.specs.Nets.{split_width, net4_of, net6_of, net4_text, net6_text, groups_text, quarters};

use crate::ipv4_nets::Net4;
use crate::ipv6_nets::Net6;
use crate::net_texts::NetText;
use crate::texts::{cut, read_address4, read_address6};
use base_decimals::read_number;
use std::alloc::{AllocError, Global};
use std::net::Ipv4Addr;

/// The text of an address, and its width.
fn split_width(text: &str, most: u8) -> Option<(&str, u8)>
    ensures found { option_map (λ p. (p.0.now, p.1)) result ≡ split_width most (parts slash text.now) }
    ensures fits { IfSome result (λ p. p.1 ≤ most) }
{
    let Some((address, width)) = cut(text, '/') else {
        return Some((text, most));
    };
    let width = read_number(width.as_bytes(), most as u64)?;
    Some((address, width as u8))
}

/// The net that a text stands for: an IPv4 address, or an address, `/` and a width from 0 to 32 without leading
/// zeros (RFC 4632, section 3.1). Bits past the width are cleared. None exactly outside this grammar.
#[tactic(auto, unfolding(crate::specs::Nets::net4_of))]
pub fn read_net4(text: &str) -> Option<Net4>
    ensures { result ≡ net4_of text.now }
{
    let (address, width) = split_width(text, 32)?;
    Some(Net4::new(read_address4(address)?, width))
}

/// The text of a net, with its width. Reading it gives the net.
pub fn print_net4(alloc: Global, net: &Net4) -> Result<NetText, AllocError>
    ensures text { IfOk result (λ text. text ≡ net4_text net.now) }
    ensures back { IfOk result (λ text. net4_of text ≡ Some net.now) }
{
    let address = Ipv4Addr::from_bits(net.bits);
    let width = net.width;
    Ok(NetText::from_string(format!(in alloc; "{address}/{width}")?))
}

/// The net that a text stands for: an IPv6 address, or an address, `/` and a width from 0 to 128 without leading
/// zeros (RFC 4291, sections 2.2 and 2.3). Bits past the width are cleared. None exactly outside this grammar.
#[tactic(auto, unfolding(crate::specs::Nets::net6_of))]
pub fn read_net6(text: &str) -> Option<Net6>
    ensures { result ≡ net6_of text.now }
{
    let (address, width) = split_width(text, 128)?;
    Some(Net6::new(read_address6(address)?, width))
}

/// Four groups in lower-case hexadecimal digits, with `:` between each two.
fn four_groups(alloc: Global, bits: u64) -> Result<String, AllocError>
    ensures { IfOk result (λ text. string_bytes text ≡ groups_text (quarters bits)) }
{
    let first = bits >> 48;
    let second = (bits >> 32) % 0x1_0000;
    let third = (bits >> 16) % 0x1_0000;
    let fourth = bits % 0x1_0000;
    format!(in alloc; "{first:x}:{second:x}:{third:x}:{fourth:x}")
}

/// The text of a net, with its width. Reading it gives the net.
pub fn print_net6(alloc: Global, net: &Net6) -> Result<NetText, AllocError>
    ensures text { IfOk result (λ text. text ≡ net6_text net.now) }
    ensures back { IfOk result (λ text. net6_of text ≡ Some net.now) }
{
    let high = four_groups(alloc, (net.bits >> 64) as u64)?;
    let low = four_groups(alloc, (net.bits % (1 << 64)) as u64)?;
    let width = net.width;
    Ok(NetText::from_string(format!(in alloc; "{high}:{low}/{width}")?))
}
