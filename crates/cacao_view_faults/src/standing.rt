// Whether the value that a pointer leads to stands at a place of a text.
ghost use Rattle.std.specs.Prelude.{◌≡◌, ◌-◌, ◌≤◌, ◌<◌, ◌++◌, false, codes, IfOk, IsTrue, is_some, length, option_and_then, option_map, string_bytes};
ghost use Rattle.serde_json.specs.Find.{as_bool, pointer};
ghost use Rattle.serde_json.specs.View.{view};
ghost use Rattle.cacao_json.specs.Reading.{reading};
ghost use Rattle.cacao_vars.specs.Names.{is_name_character};
ghost use Rattle.cacao_view_faults.specs.Stands.{byte_at, follows, follows_flag, in_place, is_flag, is_text_at, leads, stands, word_of, LeadsOn, WordStands};

use crate::scan::{byte_at, is_space};
use serde_json::{Category, Value};
use std::alloc::{AllocError, Global};
use std::str;

/// What a text is as JSON; nothing where it is none.
#[tactic(auto, using(crate::proofs::ReadLemmas::utf8_tests))]
fn read_value(alloc: Global, bytes: &[u8]) -> Result<Option<Value>, AllocError>
    ensures { IfOk result (λ found. option_map view found ≡ reading bytes.now) }
{
    let Ok(text) = str::from_utf8(bytes) else {
        return Ok(None);
    };
    match Value::from_str(alloc, text) {
        Ok(value) => Ok(Some(value)),
        Err(e) if e.classify() == Category::Memory => Err(AllocError),
        Err(_) => Ok(None),
    }
}

/// Whether the text is JSON.
pub fn is_json(alloc: Global, bytes: &[u8]) -> Result<bool, AllocError>
    ensures { IfOk result (λ yes. yes ≡ is_some (reading bytes.now)) }
{
    match read_value(alloc, bytes)? {
        Some(_) => Ok(true),
        None => Ok(false),
    }
}

/// Whether a pointer (RFC 6901) leads to a value in the text.
pub fn leads(alloc: Global, bytes: &[u8], path: &str) -> Result<bool, AllocError>
    ensures { IfOk result (λ yes. yes ≡ is_some (leads bytes.now path.now)) }
{
    let Some(value) = read_value(alloc, bytes)? else {
        return Ok(false);
    };
    match value.pointer(path) {
        Some(_) => Ok(true),
        None => Ok(false),
    }
}

fn is_flag(flag: bool, found: Option<bool>) -> bool
    ensures { result ≡ is_flag flag found }
{
    match found {
        Some(found) => { if flag { found } else { !found } }
        None => false,
    }
}

/// The flag that a pointer leads to, if it leads to one.
fn flag_at(value: &Value, path: &str) -> Option<bool>
    ensures { result ≡ option_and_then as_bool (pointer path.now (view value.now)) }
{
    let Some(found) = value.pointer(path) else {
        return None;
    };
    found.as_bool()
}

/// Whether a pointer leads to this flag in the text.
fn leads_to(alloc: Global, bytes: &[u8], path: &str, flag: bool) -> Result<bool, AllocError>
    ensures { IfOk result (λ yes. yes ≡ is_flag flag (option_and_then as_bool (leads bytes.now path.now))) }
{
    let Some(value) = read_value(alloc, bytes)? else {
        return Ok(false);
    };
    Ok(is_flag(flag, flag_at(&value, path)))
}

/// The text with a word in place of the bytes from a place on and before another.
pub fn in_place(
    alloc: Global,
    word: &[u8],
    bytes: &[u8],
    from: usize,
    end: usize,
) -> Result<Vec<u8>, AllocError>
    requires from { from ≤ length bytes.now }
    requires end { end ≤ length bytes.now }
    ensures { IfOk result (λ made. made.items ≡ in_place word.now bytes.now from end) }
{
    let mut made = Vec::from_slice(alloc, &bytes[..from])?;
    made.extend_from_slice(word)?;
    made.extend_from_slice(&bytes[end..])?;
    Ok(made)
}

/// Whether the bytes from a place on and before another are JSON text, and begin with no white space.
pub fn is_text_at(alloc: Global, bytes: &[u8], from: usize, end: usize) -> Result<bool, AllocError>
    ensures exact { IfOk result (λ yes. yes ≡ is_text_at bytes.now from end) }
    ensures within { IfOk result (λ yes. IsTrue yes → (from < end) × (end ≤ length bytes.now)) }
{
    if from < end && end <= bytes.len() {
        if is_space(byte_at(bytes, from)) {
            return Ok(false);
        }
        return is_json(alloc, &bytes[from..end]);
    }
    Ok(false)
}

fn word_of(flag: bool) -> &'static str
    ensures { result.now ≡ word_of flag }
{
    if flag { "true" } else { "false" }
}

/// Whether a pointer leads to this flag where the word for it stands from a place on and before another.
fn follows_flag(
    alloc: Global,
    bytes: &[u8],
    path: &str,
    from: usize,
    end: usize,
    flag: bool,
) -> Result<bool, AllocError>
    requires from { from ≤ length bytes.now }
    requires end { end ≤ length bytes.now }
    ensures { IfOk result (λ yes. yes ≡ follows_flag flag bytes.now path.now from end) }
{
    let made = in_place(alloc, word_of(flag).as_bytes(), bytes, from, end)?;
    leads_to(alloc, made.as_slice(), path, flag)
}

/// Whether a pointer leads to whatever stands from a place on and before another.
fn follows(
    alloc: Global,
    bytes: &[u8],
    path: &str,
    from: usize,
    end: usize,
) -> Result<bool, AllocError>
    requires from { from ≤ length bytes.now }
    requires end { end ≤ length bytes.now }
    ensures { IfOk result (λ yes. yes ≡ follows bytes.now path.now from end) }
{
    if !follows_flag(alloc, bytes, path, from, end, true)? {
        return Ok(false);
    }
    follows_flag(alloc, bytes, path, from, end, false)
}

/// Whether the value that a pointer (RFC 6901) leads to stands in the text from a place on and before another, counted in bytes.
pub fn stands(
    alloc: Global,
    bytes: &[u8],
    path: &str,
    from: usize,
    end: usize,
) -> Result<bool, AllocError>
    ensures exact { IfOk result (λ yes. yes ≡ stands bytes.now path.now from end) }
    ensures within { IfOk result (λ yes. IsTrue yes → (from < end) × (end ≤ length bytes.now)) }
{
    if !leads(alloc, bytes, path)? {
        return Ok(false);
    }
    if !is_text_at(alloc, bytes, from, end)? {
        return Ok(false);
    }
    follows(alloc, bytes, path, from, end)
}

pub(crate) fn same_bytes(one: &[u8], other: &[u8]) -> bool
    ensures { IsTrue result → one.now ≡ other.now }
{
    one == other
}

/// Whether the byte may stand in a name.
fn is_name_byte(byte: u8) -> bool
    ensures { result ≡ is_name_character byte }
{
    byte.is_ascii_alphanumeric() || byte == b'_' || byte == b'-'
}

/// Whether neither the byte before a place nor that at another is of a name.
fn is_apart(bytes: &[u8], at: usize, behind: usize) -> bool
    ensures { IsTrue result → (is_name_character (byte_at bytes.now (at - 1)) ≡ false) × (is_name_character (byte_at bytes.now behind) ≡ false) }
{
    if is_name_byte(byte_at(bytes, at.saturating_sub(1))) {
        return false;
    }
    !is_name_byte(byte_at(bytes, behind))
}

/// Whether a word stands at a place, within the bytes from a place on and before another, and in no longer name.
pub fn word_stands(bytes: &[u8], from: usize, end: usize, at: usize, word: &[u8]) -> bool
    ensures { IsTrue result → WordStands bytes.now from end at word.now }
{
    if at < from || end > bytes.len() || at > end || end - at < word.len() {
        return false;
    }
    if !is_apart(bytes, at, at + word.len()) {
        return false;
    }
    same_bytes(&bytes[at..at + word.len()], word)
}

fn joined(alloc: Global, base: &str, part: &str) -> Result<String, AllocError>
    ensures { IfOk result (λ path. string_bytes path ≡ base.now ++ (codes "/" ++ part.now)) }
{
    format!(in alloc; "{base}/{part}")
}

/// The pointer to a part of the value at another pointer; that other one where no part is named, or the part is not there.
pub fn path_of(
    alloc: Global,
    bytes: &[u8],
    base: &str,
    part: Option<&str>,
) -> Result<String, AllocError>
    ensures { IfOk result (λ path. LeadsOn bytes.now base.now (string_bytes path)) }
{
    let Some(part) = part else {
        return String::from_str(alloc, base);
    };
    let path = joined(alloc, base, part)?;
    if !leads(alloc, bytes, path.as_str())? {
        return String::from_str(alloc, base);
    }
    Ok(path)
}
