// What is wrong in a text that is not JSON, and where.
ghost use Rattle.std.specs.Prelude.{◌≡◌, ◌≤◌, ◌<◌, ◌+◌, ℕ, IfOk, IfSome, length};
ghost use Rattle.cacao_view_faults.specs.Nexts.{IsWithin};

use crate::kinds::{COMMENT, CONTROL, ESCAPE, SINGLE_QUOTE, TRAILING_COMMA};
use crate::scan::{byte_at, skip_space, stands_at, string_end, word_end};
use std::alloc::{AllocError, Global};

/// The most levels of a text.
const MOST_LEVELS: usize = 127;

/// What is wrong at a place, counted in bytes.
#[derive(Clone, Copy)]
pub struct Fault {
    pub at: usize,
    pub what: &'static str,
}

/// What may stand next.
#[derive(Clone, Copy)]
enum Expected {
    Value,
    ValueOrEnd,
    Name,
    NameOrEnd,
    Colon,
    CommaOrEnd,
    Nothing,
}

impl Expected {
    /// What is said where something else stands.
    fn says(self) -> &'static str {
        match self {
            Expected::Value =>
                "a value was expected: a text in double quotes, a number, true, false, null, { or [",
            Expected::ValueOrEnd => "a value or ] was expected",
            Expected::Name => "a name in double quotes was expected",
            Expected::NameOrEnd => "a name in double quotes or } was expected",
            Expected::Colon => "a colon was expected behind the name",
            Expected::CommaOrEnd => "a comma, or the bracket that closes, was expected",
            Expected::Nothing => "nothing more was expected behind the value",
        }
    }

    /// What is said where the text ends.
    fn ends(self) -> &'static str {
        match self {
            Expected::Value => "the text ends where a value was expected",
            Expected::ValueOrEnd => "the text ends where a value or ] was expected",
            Expected::Name => "the text ends where a name was expected",
            Expected::NameOrEnd => "the text ends where a name or } was expected",
            Expected::Colon => "the text ends where a colon was expected",
            Expected::CommaOrEnd =>
                "the text ends where a comma, or the bracket that closes, was expected",
            Expected::Nothing => "the text ends",
        }
    }
}

/// A place from which the text goes on, and what may stand there; or what is wrong.
#[derive(Clone, Copy)]
enum Next {
    Goes { at: usize, expected: Expected },
    Stops { fault: Fault },
}

fn stops(at: usize, what: &'static str) -> Next
    ensures { (most : ℕ) → at ≤ most → IsWithin most result }
{
    Next::Stops {
        fault: Fault { at, what },
    }
}

fn goes(at: usize, expected: Expected) -> Next
    ensures { (most : ℕ) → at ≤ most → IsWithin most result }
{
    Next::Goes { at, expected }
}

/// What may stand behind a value, within these brackets.
fn behind_value(stack: &[u8]) -> Expected {
    if stack.is_empty() {
        Expected::Nothing
    } else {
        Expected::CommaOrEnd
    }
}

/// The bracket that was opened last; 0 where none is open.
fn last_open(stack: &[u8]) -> u8 {
    match stack.last() {
        Some(byte) => *byte,
        None => 0,
    }
}

fn is_hex(byte: u8) -> bool {
    (byte >= b'0' && byte <= b'9')
        || (byte >= b'a' && byte <= b'f')
        || (byte >= b'A' && byte <= b'F')
}

/// Whether the bytes behind a backslash make an escape.
fn is_escape(bytes: &[u8], at: usize) -> bool {
    let byte = byte_at(bytes, at);
    if byte == b'u' {
        return is_hex(byte_at(bytes, at.saturating_add(1)))
            && is_hex(byte_at(bytes, at.saturating_add(2)))
            && is_hex(byte_at(bytes, at.saturating_add(3)))
            && is_hex(byte_at(bytes, at.saturating_add(4)));
    }
    byte == b'"'
        || byte == b'\\'
        || byte == b'/'
        || byte == b'b'
        || byte == b'f'
        || byte == b'n'
        || byte == b'r'
        || byte == b't'
}

/// What is wrong in the string whose text stands before this end; nothing where it is one.
fn string_fault(bytes: &[u8], from: usize, end: usize) -> Option<Fault>
    requires { end ≤ length bytes.now }
    ensures { IfSome result (λ fault. fault.at ≤ length bytes.now) }
{
    let mut escaped = false;
    let mut closed = false;
    for at in from..end {
        let byte = byte_at(bytes, at);
        if escaped && !is_escape(bytes, at) {
            return Some(Fault { at, what: ESCAPE });
        }
        if byte < 32 {
            return Some(Fault { at, what: CONTROL });
        }
        closed = !escaped && byte == b'"';
        escaped = !escaped && byte == b'\\';
    }
    if closed {
        None
    } else {
        Some(Fault {
            at: end,
            what: "the text ends within double quotes that are not closed",
        })
    }
}

pub(crate) fn is_digit(byte: u8) -> bool {
    byte >= b'0' && byte <= b'9'
}

/// The place behind the digits that stand from this place on.
pub(crate) fn digits_end(bytes: &[u8], from: usize) -> usize {
    for at in from..bytes.len() {
        if !is_digit(bytes[at]) {
            return at;
        }
    }
    bytes.len()
}

/// The place behind a fraction, if one begins here.
fn fraction_end(bytes: &[u8], from: usize) -> usize {
    if byte_at(bytes, from) == b'.' && is_digit(byte_at(bytes, from.saturating_add(1))) {
        return digits_end(bytes, from.saturating_add(1));
    }
    from
}

/// The place behind an exponent, if one begins here.
fn exponent_end(bytes: &[u8], from: usize) -> usize {
    let letter = byte_at(bytes, from);
    if letter != b'e' && letter != b'E' {
        return from;
    }
    let sign = byte_at(bytes, from.saturating_add(1));
    let digits = if sign == b'+' || sign == b'-' {
        from.saturating_add(2)
    } else {
        from.saturating_add(1)
    };
    if is_digit(byte_at(bytes, digits)) {
        digits_end(bytes, digits)
    } else {
        from
    }
}

/// Whether a number of JSON stands from one place to another.
fn is_number(bytes: &[u8], from: usize, end: usize) -> bool {
    let first = if byte_at(bytes, from) == b'-' {
        from.saturating_add(1)
    } else {
        from
    };
    if !is_digit(byte_at(bytes, first)) {
        return false;
    }
    let whole = if byte_at(bytes, first) == b'0' {
        first.saturating_add(1)
    } else {
        digits_end(bytes, first)
    };
    exponent_end(bytes, fraction_end(bytes, whole)) == end
}

/// Whether a word of JSON stands from one place to another.
fn is_word(bytes: &[u8], from: usize, end: usize) -> bool {
    let len = end.saturating_sub(from);
    (len == 4 && (stands_at(bytes, from, b"true") || stands_at(bytes, from, b"null")))
        || (len == 5 && stands_at(bytes, from, b"false"))
}

/// What is wrong with the word or number that begins here; nothing where it is one.
fn word_fault(bytes: &[u8], at: usize, end: usize) -> Option<Fault>
    ensures { IfSome result (λ fault. fault.at ≡ at) }
{
    if is_word(bytes, at, end) || is_number(bytes, at, end) {
        return None;
    }
    let byte = byte_at(bytes, at);
    let what = if byte == b'\'' {
        SINGLE_QUOTE
    } else if byte == b'-' || byte == b'+' || byte == b'.' || is_digit(byte) {
        "no number is written so: it has no + before it, no leading zero, and digits on both sides of a point"
    } else if byte == b'T' || byte == b'F' || byte == b'N' {
        "a word that is not of JSON: write true, false or null in small letters"
    } else {
        "a word without double quotes: a text stands in double quotes"
    };
    Some(Fault { at, what })
}

/// What follows where a bracket opens.
fn opens(stack: &mut Vec<u8>, at: usize, byte: u8) -> Result<Next, AllocError>
    ensures { IfOk result (IsWithin (at + 1)) }
{
    if stack.len() >= MOST_LEVELS {
        return Ok(stops(
            at,
            "more than 127 objects and arrays stand within one another",
        ));
    }
    stack.push(byte)?;
    let expected = if byte == b'{' {
        Expected::NameOrEnd
    } else {
        Expected::ValueOrEnd
    };
    Ok(goes(at.saturating_add(1), expected))
}

/// What follows where a value is to begin.
fn value(
    bytes: &[u8],
    at: usize,
    expected: Expected,
    stack: &mut Vec<u8>,
) -> Result<Next, AllocError>
    requires { at < length bytes.now }
    ensures { IfOk result (IsWithin (length bytes.now)) }
{
    let byte = byte_at(bytes, at);
    if byte == b'{' || byte == b'[' {
        return opens(stack, at, byte);
    }
    if byte == b'"' {
        let end = string_end(bytes, at.saturating_add(1));
        return Ok(match string_fault(bytes, at.saturating_add(1), end) {
            Some(fault) => Next::Stops { fault },
            None => goes(end, behind_value(stack.as_slice())),
        });
    }
    if byte == b',' || byte == b':' || byte == b'}' || byte == b']' {
        return Ok(stops(at, expected.says()));
    }
    let end = word_end(bytes, at);
    Ok(match word_fault(bytes, at, end) {
        Some(fault) => Next::Stops { fault },
        None => goes(end, behind_value(stack.as_slice())),
    })
}

/// What follows where a bracket closes.
fn closes(at: usize, stack: &mut Vec<u8>) -> Next
    ensures { IsWithin (at + 1) result }
{
    let _ = stack.pop();
    goes(at.saturating_add(1), behind_value(stack.as_slice()))
}

/// What follows where a name is to begin.
fn name(bytes: &[u8], at: usize, expected: Expected) -> Next
    requires { at < length bytes.now }
    ensures { IsWithin (length bytes.now) result }
{
    if byte_at(bytes, at) != b'"' {
        return stops(at, expected.says());
    }
    let end = string_end(bytes, at.saturating_add(1));
    match string_fault(bytes, at.saturating_add(1), end) {
        Some(fault) => Next::Stops { fault },
        None => goes(end, Expected::Colon),
    }
}

/// What follows behind a value.
fn behind(bytes: &[u8], at: usize, stack: &mut Vec<u8>) -> Next
    requires { at < length bytes.now }
    ensures { IsWithin (length bytes.now) result }
{
    let byte = byte_at(bytes, at);
    let open = last_open(stack.as_slice());
    if byte == b',' {
        let expected = if open == b'{' {
            Expected::Name
        } else {
            Expected::Value
        };
        return goes(at.saturating_add(1), expected);
    }
    if (byte == b'}' && open == b'{') || (byte == b']' && open == b'[') {
        return closes(at, stack);
    }
    stops(at, Expected::CommaOrEnd.says())
}

/// What follows at a place at which this is expected.
fn step(
    bytes: &[u8],
    at: usize,
    expected: Expected,
    stack: &mut Vec<u8>,
) -> Result<Next, AllocError>
    requires { at < length bytes.now }
    ensures { IfOk result (IsWithin (length bytes.now)) }
{
    let byte = byte_at(bytes, at);
    if byte == b'/' || byte == b'#' {
        return Ok(stops(at, COMMENT));
    }
    match expected {
        Expected::Value => {
            if byte == b']' && last_open(stack.as_slice()) == b'[' {
                return Ok(stops(at, TRAILING_COMMA));
            }
            value(bytes, at, expected, stack)
        }
        Expected::ValueOrEnd => {
            if byte == b']' {
                return Ok(closes(at, stack));
            }
            value(bytes, at, expected, stack)
        }
        Expected::Name => {
            if byte == b'}' {
                return Ok(stops(at, TRAILING_COMMA));
            }
            Ok(name(bytes, at, expected))
        }
        Expected::NameOrEnd => {
            if byte == b'}' {
                return Ok(closes(at, stack));
            }
            Ok(name(bytes, at, expected))
        }
        Expected::Colon => {
            if byte == b':' {
                return Ok(goes(at.saturating_add(1), Expected::Value));
            }
            Ok(stops(at, expected.says()))
        }
        Expected::CommaOrEnd => Ok(behind(bytes, at, stack)),
        Expected::Nothing => Ok(stops(at, expected.says())),
    }
}

/// The first thing that is wrong in a text in UTF-8, as JSON; nothing where none is found.
pub(crate) fn syntax_fault(alloc: Global, bytes: &[u8]) -> Result<Option<Fault>, AllocError>
    ensures { IfOk result (λ found. IfSome found (λ fault. fault.at ≤ length bytes.now)) }
{
    let mut stack = Vec::new(alloc);
    let mut at = 0usize;
    let mut expected = Expected::Value;
    for _ in 0..bytes.len().saturating_add(1) {
        at = skip_space(bytes, at);
        if at >= bytes.len() {
            return Ok(match expected {
                Expected::Nothing => None,
                _ => Some(Fault {
                    at,
                    what: expected.ends(),
                }),
            });
        }
        match step(bytes, at, expected, &mut stack)? {
            Next::Goes {
                at: behind,
                expected: next,
            } => {
                at = behind;
                expected = next;
            }
            Next::Stops { fault } => return Ok(Some(fault)),
        }
    }
    Ok(None)
}
