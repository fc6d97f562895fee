// Fields from the front of a slice of bytes: the value, and the bytes behind it.
ghost use Rattle.std.specs.Prelude.{◌≡◌, IfOk, option_map};
ghost use Rattle.std.specs.Int.{w16, w32, w64};
ghost use Rattle.std.specs.Str.{is_utf8};
ghost use Rattle.run_records.specs.Fields.{number_at, small_at, string_at, text_at, strings_at, value_and_rest};

use cacao_site::Bytes;
use std::alloc::{AllocError, Global};
use std::str;

/// The most bytes of a canonical text, a command or a reply.
pub const MOST_TEXT: u32 = 1_048_576;

/// The most bytes of a status text.
pub const MOST_STATUS_TEXT: u32 = 4_096;

#[tactic(auto, unfolding(crate::specs::Fields::number_at))]
pub fn u16_at(bytes: &[u8]) -> Option<(u16, &[u8])>
    ensures { option_map value_and_rest result ≡ number_at w16 bytes.now }
{
    if bytes.len() < 2 {
        return None;
    }
    let (front, rest) = bytes.split_at(2);
    Some((u16::from_be_bytes([front[0], front[1]]), rest))
}

#[tactic(auto, unfolding(crate::specs::Fields::number_at))]
pub fn u32_at(bytes: &[u8]) -> Option<(u32, &[u8])>
    ensures { option_map value_and_rest result ≡ number_at w32 bytes.now }
{
    if bytes.len() < 4 {
        return None;
    }
    let (front, rest) = bytes.split_at(4);
    let number = u32::from_be_bytes([front[0], front[1], front[2], front[3]]);
    Some((number, rest))
}

#[tactic(auto, unfolding(crate::specs::Fields::number_at))]
pub fn u64_at(bytes: &[u8]) -> Option<(u64, &[u8])>
    ensures { option_map value_and_rest result ≡ number_at w64 bytes.now }
{
    if bytes.len() < 8 {
        return None;
    }
    let (front, rest) = bytes.split_at(8);
    let number = u64::from_be_bytes([
        front[0], front[1], front[2], front[3], front[4], front[5], front[6], front[7],
    ]);
    Some((number, rest))
}

/// A number of one byte from 1 to 16.
#[tactic(auto, unfolding(crate::specs::Fields::small_at))]
pub fn small_at(bytes: &[u8]) -> Option<(u8, &[u8])>
    ensures { option_map value_and_rest result ≡ small_at bytes.now }
{
    match bytes {
        [number, rest @ ..] if 1 <= *number && *number <= 16 => Some((*number, rest)),
        _ => None,
    }
}

/// A length of at most `most`, and so many bytes.
#[tactic(auto, unfolding(crate::specs::Fields::string_at))]
pub fn string_at(most: u32, bytes: &[u8]) -> Option<(&[u8], &[u8])>
    ensures { option_map (λ x. (x.0.now, x.1.now)) result ≡ string_at most bytes.now }
{
    let (length, rest) = u32_at(bytes)?;
    if length > most || length as usize > rest.len() {
        return None;
    }
    Some(rest.split_at(length as usize))
}

fn is_utf8(bytes: &[u8]) -> bool
    ensures { result ≡ is_utf8 bytes.now }
{
    str::from_utf8(bytes).is_ok()
}

/// A length of at most `most`, and so many bytes in UTF-8.
#[tactic(auto, unfolding(crate::specs::Fields::text_at))]
pub fn text_at(most: u32, bytes: &[u8]) -> Option<(&[u8], &[u8])>
    ensures { option_map (λ x. (x.0.now, x.1.now)) result ≡ text_at most bytes.now }
{
    let (text, rest) = string_at(most, bytes)?;
    if is_utf8(text) {
        Some((text, rest))
    } else {
        None
    }
}

/// So many texts, one behind the other.
pub fn strings_at(
    alloc: Global,
    count: u8,
    bytes: &[u8],
) -> Result<Option<(Vec<Bytes>, &[u8])>, AllocError>
    ensures { IfOk result
        (λ found. option_map (λ x. (x.0.items, x.1.now)) found ≡ strings_at count bytes.now) }
{
    let mut texts = Vec::new(alloc);
    let mut rest = bytes;
    for _ in 0..count {
        let Some((text, behind)) = string_at(MOST_TEXT, rest) else {
            return Ok(None);
        };
        texts.push(Bytes::from_slice(alloc, text)?)?;
        rest = behind;
    }
    Ok(Some((texts, rest)))
}
