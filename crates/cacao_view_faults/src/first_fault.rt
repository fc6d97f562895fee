// The first thing that is wrong in a text that is not JSON.
ghost use Rattle.std.specs.Prelude.{◌≤◌, IfOk, IfSome, length};

use crate::faults::{Fault, is_digit, syntax_fault};
use crate::kinds::{BYTE_ORDER_MARK, Kind, NOT_JSON, NOT_UTF8, UTF_16, ZERO_BYTES, kind_at};
use crate::scan::{byte_at, skip_space, string_end, word_end};
use crate::standing::is_json;
use std::alloc::{AllocError, Global};
use std::str;

/// The place of the second byte where that is the first one that is zero; else that of the first.
fn zero_place(bytes: &[u8]) -> usize
    ensures { result ≤ length bytes.now }
{
    if byte_at(bytes, 0) == 0 || byte_at(bytes, 1) != 0 {
        return 0;
    }
    bytes.len().min(1)
}

/// What is wrong with how the text is encoded, by its first bytes.
fn encoding_fault(bytes: &[u8]) -> Option<Fault>
    ensures { IfSome result (λ fault. fault.at ≤ length bytes.now) }
{
    let what = match kind_at(bytes, 0) {
        Kind::ByteOrderMark => BYTE_ORDER_MARK,
        Kind::Utf16 => UTF_16,
        Kind::ZeroBytes => {
            return Some(Fault {
                at: zero_place(bytes),
                what: ZERO_BYTES,
            });
        }
        _ => return None,
    };
    Some(Fault { at: 0, what })
}

/// How many bytes of a text are of UTF-8, from its beginning on.
fn utf8_len(bytes: &[u8]) -> usize
    ensures { result ≤ length bytes.now }
{
    match str::from_utf8(bytes) {
        Ok(_) => bytes.len(),
        Err(error) => error.valid_up_to().min(bytes.len()),
    }
}

const NO_TOKEN: &str = "an escape of half a character, or a number that is too large";

/// The first string or number that is none by itself, in a text whose brackets, commas and colons are well.
fn token_fault(alloc: Global, bytes: &[u8]) -> Result<Option<Fault>, AllocError>
    ensures { IfOk result (λ found. IfSome found (λ fault. fault.at ≤ length bytes.now)) }
{
    let mut at = 0usize;
    for _ in 0..bytes.len() {
        at = skip_space(bytes, at);
        let byte = byte_at(bytes, at);
        let is_string = byte == b'"';
        if !is_string && byte != b'-' && !is_digit(byte) {
            at = at.saturating_add(1);
            continue;
        }
        let end = if is_string {
            string_end(bytes, at.saturating_add(1))
        } else {
            word_end(bytes, at)
        };
        let Some(token) = bytes.get(at..end) else {
            return Ok(None);
        };
        if !is_json(alloc, token)? {
            return Ok(Some(Fault { at, what: NO_TOKEN }));
        }
        at = end;
    }
    Ok(None)
}

/// What is wrong in a text that is not JSON: the first thing that is found. Its place is counted in bytes, and stands within the text or at its end.
pub(crate) fn fault_in(alloc: Global, bytes: &[u8]) -> Result<Fault, AllocError>
    ensures { IfOk result (λ fault. fault.at ≤ length bytes.now) }
{
    if let Some(fault) = encoding_fault(bytes) {
        return Ok(fault);
    }
    let len = utf8_len(bytes);
    let found = syntax_fault(alloc, &bytes[..len])?;
    if let Some(fault) = found {
        if fault.at < len || len == bytes.len() {
            return Ok(Fault {
                at: fault.at.min(len),
                what: fault.what,
            });
        }
    }
    if len < bytes.len() {
        return Ok(Fault {
            at: len,
            what: NOT_UTF8,
        });
    }
    let found = token_fault(alloc, bytes)?;
    Ok(found.unwrap_or(Fault {
        at: bytes.len(),
        what: NOT_JSON,
    }))
}
