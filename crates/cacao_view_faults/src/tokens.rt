// Names that stand twice in one object, and numbers that are not whole, in texts that are JSON otherwise.
ghost use Rattle.std.specs.Prelude.{◌≡◌, ◌≤◌, IfOk, IfSome, length};
ghost use Rattle.cacao_view_faults.specs.Tokens.{begins_number};

use crate::faults::digits_end;
use crate::scan::{byte_at, is_space, skip_space, string_end, word_end};
use std::alloc::{AllocError, Global};
use std::collections::BTreeMap;

/// Where a name stands: the place of its text, and the place behind it.
#[derive(Clone, Copy)]
struct Span {
    from: usize,
    end: usize,
}

/// Where a name stands twice in one object: the places of its quotation marks, counted in bytes.
#[derive(Clone, Copy)]
pub struct Twice {
    pub first: usize,
    pub second: usize,
}

/// The bytes of a span.
fn text_of(bytes: &[u8], span: Span) -> &[u8] {
    match bytes.get(span.from..span.end) {
        Some(text) => text,
        None => &[],
    }
}

/// The names of the objects that are open, each map those of one object or array, with the places of their texts.
#[derive(Drop)]
struct Levels<'a> {
    levels: Vec<BTreeMap<&'a [u8], usize>>,
}

impl<'a> Levels<'a> {
    /// Takes the brackets along.
    fn bracket(&mut self, alloc: Global, byte: u8) -> Result<(), AllocError> {
        if byte == b'{' || byte == b'[' {
            self.levels.push(BTreeMap::new(alloc))?;
        }
        if byte == b'}' || byte == b']' {
            let _ = self.levels.pop();
        }
        Ok(())
    }

    /// Takes a name along; the place of the same bytes in its object, if they stand there.
    fn name(&mut self, bytes: &'a [u8], span: Span) -> Result<Option<usize>, AllocError> {
        let Some(mut names) = self.levels.pop() else {
            return Ok(None);
        };
        let same = names.insert(text_of(bytes, span), span.from)?;
        self.levels.push(names)?;
        Ok(same)
    }
}

/// The first name that stands twice in one object, as it is written; none where no two are written alike.
pub fn name_twice(alloc: Global, bytes: &[u8]) -> Result<Option<Twice>, AllocError>
    ensures { IfOk result (λ found. IfSome found (λ twice. (twice.first ≤ twice.second) × (twice.second ≤ length bytes.now))) }
{
    let mut levels = Levels {
        levels: Vec::new(alloc),
    };
    let mut at = 0usize;
    for _ in 0..bytes.len() {
        if at >= bytes.len() {
            return Ok(None);
        }
        let byte = bytes[at];
        if byte != b'"' {
            levels.bracket(alloc, byte)?;
            at = at.saturating_add(1);
            continue;
        }
        let span = Span {
            from: at.saturating_add(1),
            end: string_end(bytes, at.saturating_add(1)).saturating_sub(1),
        };
        let behind = span.end.saturating_add(1);
        if byte_at(bytes, skip_space(bytes, behind)) == b':' {
            if let Some(first) = levels.name(bytes, span)? {
                return Ok(Some(Twice {
                    first: first.saturating_sub(1).min(at),
                    second: at,
                }));
            }
        }
        at = behind;
    }
    Ok(None)
}

/// Whether a number of this text is whole, and of at most 9,007,199,254,740,991.
fn is_whole(text: &[u8]) -> bool {
    if text == b"-0".as_slice() {
        return false;
    }
    let digits = match text.strip_prefix(b"-") {
        Some(digits) => digits,
        None => text,
    };
    if digits_end(digits, 0) < digits.len() {
        return false;
    }
    digits.len() < 16 || (digits.len() == 16 && is_at_most(digits, b"9007199254740991"))
}

/// Whether the first digits are not greater than the others, which are as many.
fn is_at_most(digits: &[u8], most: &[u8]) -> bool {
    for at in 0..digits.len() {
        let digit = digits[at];
        let other = byte_at(most, at);
        if digit != other {
            return digit < other;
        }
    }
    true
}

/// Whether a number begins with this byte.
pub(crate) fn begins_number(byte: u8) -> bool
    ensures { result ≡ begins_number byte }
{
    byte == b'-' || (byte >= b'0' && byte <= b'9')
}

/// Whether the byte stands between values.
fn is_between(byte: u8) -> bool {
    is_space(byte) || byte == b'{' || byte == b'[' || byte == b':' || byte == b','
}

/// The place of the first number from a place on that is not whole, or out of range.
pub(crate) fn number_not_whole(bytes: &[u8], from: usize) -> Option<usize>
    ensures { IfSome result (λ at. at ≤ length bytes.now) }
{
    let mut at = from;
    let mut between = true;
    for _ in 0..bytes.len() {
        if at >= bytes.len() {
            return None;
        }
        let byte = bytes[at];
        if byte == b'"' {
            at = string_end(bytes, at.saturating_add(1));
            between = false;
            continue;
        }
        if between && begins_number(byte) {
            let end = word_end(bytes, at);
            if !is_whole(text_of(bytes, Span { from: at, end })) {
                return Some(at);
            }
            at = end;
            between = false;
            continue;
        }
        between = is_between(byte);
        at = at.saturating_add(1);
    }
    None
}
