// Whether a text may be the value of a variable of a kind. No call here takes memory.
ghost use Rattle.std.specs.Prelude.{◌≡◌, ◌↔◌, IsTrue, ◌&&◌, nat_le};
ghost use Rattle.std.specs.List.{list_all};
ghost use Rattle.cacao_check.specs.Fits.{is_letter as is_letter_of, is_hex as is_hex_of, is_scheme_character, is_visible, may_stand_in_mac as may_stand, IsMac, IsUri, IsOfKind, FitsKind};
ghost use Rattle.cacao_check.specs.UriTexts.{has_rest, is_rest as is_rest_of};

use base_decimals::{MOST_EXACT, read_integer};
use cacao_ids::is_uuid;
use cacao_vars::Kind;
use oc2_nets::{read_net4, read_net6};

fn is_letter(byte: u8) -> bool
    ensures { result ≡ is_letter_of byte }
{
    (b'A' <= byte && byte <= b'Z') || (b'a' <= byte && byte <= b'z')
}

fn is_digit(byte: u8) -> bool
    ensures { result ≡ (nat_le 48 byte && nat_le byte 57) }
{
    b'0' <= byte && byte <= b'9'
}

fn is_hex(byte: u8) -> bool
    ensures { result ≡ is_hex_of byte }
{
    is_digit(byte) || (b'A' <= byte && byte <= b'F') || (b'a' <= byte && byte <= b'f')
}

fn are_hex(text: &[u8]) -> bool
    ensures { result ≡ list_all is_hex_of text.now }
{
    text.iter().all(|byte| is_hex(*byte))
}

fn may_stand_in_mac(place: usize, byte: u8) -> bool
    ensures { result ≡ may_stand place byte }
{
    if place % 3 == 2 {
        byte == b':'
    } else {
        is_hex(byte)
    }
}

// Whether the text is six groups of two hexadecimal digits with `:` between.
fn is_mac(text: &[u8]) -> bool
    ensures { IsTrue result ↔ IsMac text.now }
{
    if text.len() != 17 {
        return false;
    }
    for (place, byte) in text.iter().enumerate() {
        if !may_stand_in_mac(place, *byte) {
            return false;
        }
    }
    true
}

fn is_scheme_byte(byte: u8) -> bool
    ensures { result ≡ is_scheme_character byte }
{
    is_letter(byte) || is_digit(byte) || byte == b'+' || byte == b'-' || byte == b'.'
}

fn are_visible(text: &[u8]) -> bool
    ensures { result ≡ list_all is_visible text.now }
{
    text.iter().all(|byte| b'!' <= *byte && *byte <= b'~')
}

// Whether the text is one or more visible characters.
fn is_rest(text: &[u8]) -> bool
    ensures { result ≡ is_rest_of text.now }
{
    !text.is_empty() && are_visible(text)
}

// Whether the text is characters of a scheme, a colon, and one or more visible characters.
fn has_scheme(text: &[u8]) -> bool
    ensures { result ≡ has_rest text.now }
{
    for (place, byte) in text.iter().enumerate() {
        if *byte == b':' {
            return is_rest(&text[place + 1..]);
        }
        if !is_scheme_byte(*byte) {
            return false;
        }
    }
    false
}

// Whether the text is a letter, characters of a scheme, a colon, and one or more visible characters.
fn is_uri(text: &[u8]) -> bool
    ensures { IsTrue result ↔ IsUri text.now }
{
    match text {
        [letter, rest @ ..] => is_letter(*letter) && has_scheme(rest),
        [] => false,
    }
}

fn is_of_kind(kind: &Kind, text: &str) -> bool
    ensures { IsTrue result ↔ IsOfKind kind.now text.now }
{
    let bytes = text.as_bytes();
    match kind {
        Kind::String => true,
        Kind::Bool => text == "true" || text == "false",
        Kind::Integer => { read_integer(bytes, MOST_EXACT, MOST_EXACT).is_some() }
        Kind::Long => {
            read_integer(bytes, 9_223_372_036_854_775_808, 9_223_372_036_854_775_807).is_some()
        }
        Kind::Ipv4Addr => read_net4(text).is_some(),
        Kind::Ipv6Addr => read_net6(text).is_some(),
        Kind::MacAddr => is_mac(bytes),
        Kind::Uri => is_uri(bytes),
        Kind::Uuid => is_uuid(text),
        Kind::Hexstring => !bytes.is_empty() && are_hex(bytes),
        Kind::Other(_) => true,
    }
}

/// Whether a text may be the value of a variable of a kind (CACAO 2.0, section 10.18.1). Each kind takes the empty
/// text. An `integer` is a whole number from -9,007,199,254,740,991 to 9,007,199,254,740,991 and a `long` one of 64
/// bits, both without a plus sign and without leading zeros. It takes no memory.
pub fn value_fits(kind: &Kind, text: &str) -> bool
    ensures { IsTrue result ↔ FitsKind kind.now text.now }
{
    text.is_empty() || is_of_kind(kind, text)
}
