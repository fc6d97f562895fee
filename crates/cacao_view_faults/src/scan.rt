// Where parts of a JSON text stand.
ghost use Rattle.std.specs.Prelude.{◌≡◌, ◌≤◌, IfOk, IfSome, length};
ghost use Rattle.cacao_view_faults.specs.Kinds.{is_of_word};
ghost use Rattle.cacao_view_faults.specs.Stands.{byte_at, is_space};

use cacao_json::{find_tree, text_of};
use std::alloc::{AllocError, Global};

/// White space of JSON.
pub fn is_space(byte: u8) -> bool
    ensures { result ≡ is_space byte }
{
    byte == b' ' || byte == b'\t' || byte == b'\n' || byte == b'\r'
}

/// The byte at a place; 0 past the end.
pub fn byte_at(bytes: &[u8], at: usize) -> u8
    ensures { result ≡ byte_at bytes.now at }
{
    match bytes.get(at) {
        Some(byte) => *byte,
        None => 0,
    }
}

/// The first place from this one on at which no white space stands.
pub fn skip_space(bytes: &[u8], from: usize) -> usize
    ensures { result ≤ length bytes.now }
{
    for at in from..bytes.len() {
        if !is_space(bytes[at]) {
            return at;
        }
    }
    bytes.len()
}

/// The place behind the string whose text begins at this place, behind its quotation mark.
pub fn string_end(bytes: &[u8], from: usize) -> usize
    ensures { result ≤ length bytes.now }
{
    let mut escaped = false;
    for at in from..bytes.len() {
        let byte = bytes[at];
        if !escaped && byte == b'"' {
            return at + 1;
        }
        escaped = !escaped && byte == b'\\';
    }
    bytes.len()
}

/// Whether the byte is one of a word or a number: no white space, and none that begins, ends or parts other values.
pub fn is_of_word(byte: u8) -> bool
    ensures { result ≡ is_of_word byte }
{
    !(is_space(byte)
        || byte == b'"'
        || byte == b','
        || byte == b':'
        || byte == b'['
        || byte == b']'
        || byte == b'{'
        || byte == b'}')
}

/// The place behind the word or number that begins at this place.
pub fn word_end(bytes: &[u8], from: usize) -> usize
    ensures { result ≤ length bytes.now }
{
    for at in from..bytes.len() {
        if !is_of_word(bytes[at]) {
            return at;
        }
    }
    bytes.len()
}

/// The place behind the object or array that begins at this place.
fn container_end(bytes: &[u8], from: usize) -> usize
    ensures { result ≤ length bytes.now }
{
    let mut depth = 0usize;
    let mut string_behind = from;
    for at in from..bytes.len() {
        let byte = bytes[at];
        if at < string_behind {
            continue;
        }
        if byte == b'"' {
            string_behind = string_end(bytes, at + 1);
        }
        if byte == b'{' || byte == b'[' {
            depth = depth.saturating_add(1);
        }
        if byte == b'}' || byte == b']' {
            depth = depth.saturating_sub(1);
            if depth == 0 {
                return at + 1;
            }
        }
    }
    bytes.len()
}

/// The place behind the value that begins at this place.
pub fn value_end(bytes: &[u8], from: usize) -> usize
    ensures { result ≤ length bytes.now }
{
    let byte = byte_at(bytes, from);
    if byte == b'"' {
        return string_end(bytes, from.saturating_add(1));
    }
    if byte == b'{' || byte == b'[' {
        return container_end(bytes, from);
    }
    word_end(bytes, from)
}

/// The place of the next item or member behind a value: past its comma. None where there is none.
fn next_part(bytes: &[u8], value: usize) -> Option<usize>
    ensures { IfSome result (λ at. at ≤ length bytes.now) }
{
    let behind = skip_space(bytes, value_end(bytes, value));
    if byte_at(bytes, behind) == b',' {
        Some(skip_space(bytes, behind.saturating_add(1)))
    } else {
        None
    }
}

/// Whether a backslash stands in the text of a string.
fn has_escape(text: &[u8]) -> bool {
    for at in 0..text.len() {
        if text[at] == b'\\' {
            return true;
        }
    }
    false
}

/// Whether the string that stands from a place on and before another, with its quotation marks, is this name.
fn is_name(
    alloc: Global,
    bytes: &[u8],
    from: usize,
    end: usize,
    name: &str,
) -> Result<bool, AllocError> {
    let Some(found) = bytes.get(from.saturating_add(1)..end.saturating_sub(1)) else {
        return Ok(false);
    };
    if found == name.as_bytes() {
        return Ok(true);
    }
    if !has_escape(found) {
        return Ok(false);
    }
    let Some(quoted) = bytes.get(from..end) else {
        return Ok(false);
    };
    let Some(tree) = find_tree(alloc, quoted)? else {
        return Ok(false);
    };
    match text_of(&tree) {
        Some(text) => Ok(text.text() == name),
        None => Ok(false),
    }
}

/// The place of the value of the member with this name, of the object that begins at a place.
pub fn member_at(
    alloc: Global,
    bytes: &[u8],
    object: usize,
    name: &str,
) -> Result<Option<usize>, AllocError>
    ensures { IfOk result (λ found. IfSome found (λ at. at ≤ length bytes.now)) }
{
    let mut at = skip_space(bytes, object.saturating_add(1));
    for _ in 0..bytes.len() {
        if byte_at(bytes, at) != b'"' {
            return Ok(None);
        }
        let end = string_end(bytes, at.saturating_add(1));
        let colon = skip_space(bytes, end);
        let value = skip_space(bytes, colon.saturating_add(1));
        if is_name(alloc, bytes, at, end, name)? {
            return Ok(Some(value));
        }
        at = match next_part(bytes, value) {
            Some(next) => next,
            None => return Ok(None),
        };
    }
    Ok(None)
}

/// The place of an item, by its number, of the array that begins at a place.
pub fn item_at(bytes: &[u8], array: usize, number: usize) -> Option<usize>
    ensures { IfSome result (λ at. at ≤ length bytes.now) }
{
    let mut at = skip_space(bytes, array.saturating_add(1));
    for _ in 0..number {
        at = next_part(bytes, at)?;
    }
    Some(at)
}

/// The place of the name, with its quotation marks, of the member whose value begins at a place, of the object that begins at another.
pub fn name_at(bytes: &[u8], object: usize, wanted: usize) -> Option<usize> {
    let mut at = skip_space(bytes, object.saturating_add(1));
    for _ in 0..bytes.len() {
        if byte_at(bytes, at) != b'"' {
            return None;
        }
        let colon = skip_space(bytes, string_end(bytes, at.saturating_add(1)));
        let value = skip_space(bytes, colon.saturating_add(1));
        if value == wanted {
            return Some(at);
        }
        at = next_part(bytes, value)?;
    }
    None
}

/// Whether these bytes stand at a place.
pub fn stands_at(bytes: &[u8], at: usize, word: &[u8]) -> bool {
    match bytes.get(at..at.saturating_add(word.len())) {
        Some(found) => found == word,
        None => false,
    }
}
