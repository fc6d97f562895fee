// Whether a name stands again in its object, and whether a number is not whole, at a place of a text.
ghost use Rattle.std.specs.Prelude.{◌≡◌, ◌≤◌, ◌<◌, IfOk, IfSome, IsTrue, codes, false, length, nat_le, nat_lt, slice_range, true};
ghost use Rattle.cacao_json.specs.Refusals.{answer};
ghost use Rattle.cacao_view_faults.specs.Stands.{in_place};
ghost use Rattle.cacao_view_faults.specs.Tokens.{IsBrokenNumber, IsTwice, are_together, is_broken_number, is_not_whole, is_not_whole_at, renamed, repeats, stands_again};

use crate::scan::{byte_at, string_end, word_end};
use crate::standing::{in_place, is_json, is_text_at, same_bytes};
use crate::tokens::{Twice, begins_number, number_not_whole};
use cacao_json::{JsonError, TEXT_LIMIT, read_tree};
use std::alloc::{AllocError, Global};

/// How many members are lost since their names stand again.
fn repeats(alloc: Global, bytes: &[u8]) -> Result<u32, AllocError>
    requires { length bytes.now ≤ 1048576 }
    ensures { IfOk result (λ count. count ≡ repeats (answer bytes.now)) }
{
    let Err(error) = read_tree(alloc, bytes) else {
        return Ok(0);
    };
    match error {
        JsonError::NotJson => Ok(0),
        JsonError::RepeatedName { colons, members } => Ok(colons.saturating_sub(members)),
        JsonError::NotWhole { .. } => Ok(0),
        JsonError::Memory => Err(AllocError),
    }
}

fn is_not_whole(alloc: Global, bytes: &[u8]) -> Result<bool, AllocError>
    requires { length bytes.now ≤ 1048576 }
    ensures { IfOk result (λ yes. yes ≡ is_not_whole (answer bytes.now)) }
{
    let Err(error) = read_tree(alloc, bytes) else {
        return Ok(false);
    };
    match error {
        JsonError::NotJson => Ok(false),
        JsonError::RepeatedName { .. } => Ok(false),
        JsonError::NotWhole { .. } => Ok(true),
        JsonError::Memory => Err(AllocError),
    }
}

/// Whether one text has fewer names that stand again than another.
fn has_fewer(alloc: Global, made: &[u8], bytes: &[u8]) -> Result<bool, AllocError>
    requires { length bytes.now ≤ 1048576 }
    ensures { IfOk result (λ yes. IsTrue yes → nat_lt (repeats (answer made.now)) (repeats (answer bytes.now)) ≡ true) }
{
    if made.len() > TEXT_LIMIT {
        return Ok(false);
    }
    let left = repeats(alloc, made)?;
    let all = repeats(alloc, bytes)?;
    Ok(left < all)
}

/// The text with `~` at the end of the name that ends before a place, with its quotation mark.
fn renamed(alloc: Global, bytes: &[u8], end: usize) -> Result<Vec<u8>, AllocError>
    requires { end ≤ length bytes.now }
    ensures { IfOk result (λ made. made.items ≡ renamed bytes.now end) }
{
    in_place(alloc, b"~\"", bytes, end.saturating_sub(1), end)
}

/// Whether a name stands from a place on and before another that stands again in its object.
fn stands_again(alloc: Global, bytes: &[u8], from: usize, end: usize) -> Result<bool, AllocError>
    requires { length bytes.now ≤ 1048576 }
    ensures { IfOk result (λ yes. IsTrue yes → stands_again bytes.now from end ≡ true) }
{
    if byte_at(bytes, from) != b'"' || end > bytes.len() {
        return Ok(false);
    }
    if !is_text_at(alloc, bytes, from, end)? {
        return Ok(false);
    }
    let made = renamed(alloc, bytes, end)?;
    if !is_json(alloc, made.as_slice())? {
        return Ok(false);
    }
    has_fewer(alloc, made.as_slice(), bytes)
}

/// Whether the same bytes stand from one place on and before another, and from a third on and before a fourth.
fn are_alike(bytes: &[u8], from: usize, end: usize, other: usize, other_end: usize) -> bool
    ensures { IsTrue result → slice_range bytes.now from end ≡ slice_range bytes.now other other_end }
{
    if from > end || end > bytes.len() || other > other_end || other_end > bytes.len() {
        return false;
    }
    same_bytes(&bytes[from..end], &bytes[other..other_end])
}

/// Whether one text has no more names that stand again than another.
fn loses_no_more(alloc: Global, one: &[u8], other: &[u8]) -> Result<bool, AllocError>
    ensures { IfOk result (λ yes. IsTrue yes → nat_le (repeats (answer one.now)) (repeats (answer other.now)) ≡ true) }
{
    if one.len() > TEXT_LIMIT || other.len() > TEXT_LIMIT {
        return Ok(false);
    }
    let least = repeats(alloc, one)?;
    let most = repeats(alloc, other)?;
    Ok(least <= most)
}

/// Whether the names that end before these places are of one object.
fn are_together(
    alloc: Global,
    bytes: &[u8],
    first_end: usize,
    second_end: usize,
) -> Result<bool, AllocError>
    requires first { first_end ≤ length bytes.now }
    requires second { second_end ≤ length bytes.now }
    ensures { IfOk result (λ yes. IsTrue yes → are_together bytes.now first_end second_end ≡ true) }
{
    let one = renamed(alloc, bytes, first_end)?;
    let second = renamed(alloc, bytes, second_end)?;
    if first_end > second.len() {
        return Ok(false);
    }
    let both = renamed(alloc, second.as_slice(), first_end)?;
    loses_no_more(alloc, one.as_slice(), both.as_slice())
}

/// Whether one name stands at both places, at each stands again in its object, and that is one object.
pub fn is_twice(alloc: Global, bytes: &[u8], twice: Twice) -> Result<bool, AllocError>
    requires { length bytes.now ≤ 1048576 }
    ensures { IfOk result (λ yes. IsTrue yes → IsTwice bytes.now twice.first twice.second) }
{
    let first_end = string_end(bytes, twice.first.saturating_add(1));
    let second_end = string_end(bytes, twice.second.saturating_add(1));
    if twice.first >= twice.second
        || !are_alike(bytes, twice.first, first_end, twice.second, second_end)
    {
        return Ok(false);
    }
    if !stands_again(alloc, bytes, twice.first, first_end)? {
        return Ok(false);
    }
    if !stands_again(alloc, bytes, twice.second, second_end)? {
        return Ok(false);
    }
    let together = are_together(alloc, bytes, first_end, second_end)?;
    Ok(together)
}

/// Whether the first number that is not whole, as they are counted, is that of this number.
fn is_not_whole_at(alloc: Global, bytes: &[u8], number: u32) -> Result<bool, AllocError>
    requires { length bytes.now ≤ 1048576 }
    ensures { IfOk result (λ yes. yes ≡ is_not_whole_at number (answer bytes.now)) }
{
    let Err(error) = read_tree(alloc, bytes) else {
        return Ok(false);
    };
    match error {
        JsonError::NotJson => Ok(false),
        JsonError::RepeatedName { .. } => Ok(false),
        JsonError::NotWhole { index } => Ok(index == number),
        JsonError::Memory => Err(AllocError),
    }
}

/// Whether what stands from a place on and before another is the number of this number, as they are counted, of which it is known that it is the
/// first that is not whole.
fn is_counted(
    alloc: Global,
    bytes: &[u8],
    number: u32,
    from: usize,
    end: usize,
) -> Result<bool, AllocError>
    requires from { from ≤ length bytes.now }
    requires end { end ≤ length bytes.now }
    ensures { IfOk result (λ yes. IsTrue yes → is_not_whole_at number (answer (in_place (codes "0") bytes.now from end)) ≡ false) }
{
    let made = in_place(alloc, b"0", bytes, from, end)?;
    if made.len() > TEXT_LIMIT {
        return Ok(false);
    }
    let same = is_not_whole_at(alloc, made.as_slice(), number)?;
    Ok(!same)
}

/// Whether a number that is not whole stands as a value from a place on and before another.
fn is_number_at(alloc: Global, bytes: &[u8], from: usize, end: usize) -> Result<bool, AllocError>
    requires { length bytes.now ≤ 1048576 }
    ensures { IfOk result (λ yes. IsTrue yes → is_broken_number bytes.now from end ≡ true) }
{
    if !begins_number(byte_at(bytes, from)) || from > end || end > bytes.len() {
        return Ok(false);
    }
    if !is_text_at(alloc, bytes, from, end)? {
        return Ok(false);
    }
    if !is_not_whole(alloc, &bytes[from..end])? {
        return Ok(false);
    }
    let made = in_place(alloc, b"\"\"", bytes, from, end)?;
    is_json(alloc, made.as_slice())
}

/// Whether the number that begins at this place, as a value, is the first that is not whole, as they are counted, of which the number is known.
fn is_broken_number(alloc: Global, bytes: &[u8], number: u32, at: usize) -> Result<bool, AllocError>
    requires { length bytes.now ≤ 1048576 }
    ensures { IfOk result (λ yes. IsTrue yes → IsBrokenNumber bytes.now number at) }
{
    let end = word_end(bytes, at);
    if !is_number_at(alloc, bytes, at, end)? || at > bytes.len() {
        return Ok(false);
    }
    let counted = is_counted(alloc, bytes, number, at, end)?;
    Ok(counted)
}

/// The most numbers that are tried.
const MOST_TRIES: usize = 64;

/// The place of the first number that is not whole, as they are counted, depth first and the members in the order of their names, where its number
/// is this one; none where it is not among the first 64 such numbers of the text.
pub fn broken_number(alloc: Global, bytes: &[u8], number: u32) -> Result<Option<usize>, AllocError>
    requires { length bytes.now ≤ 1048576 }
    ensures within { IfOk result (λ found. IfSome found (λ at. at ≤ length bytes.now)) }
    ensures number { IfOk result (λ found. IfSome found (λ at. IsBrokenNumber bytes.now number at)) }
{
    let mut from = 0usize;
    for _ in 0..MOST_TRIES {
        let Some(at) = number_not_whole(bytes, from) else {
            return Ok(None);
        };
        if is_broken_number(alloc, bytes, number, at)? {
            return Ok(Some(at));
        }
        from = word_end(bytes, at);
    }
    Ok(None)
}
