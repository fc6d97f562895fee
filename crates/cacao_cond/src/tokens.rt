// The parts of a condition that take no memory, read from the left.
ghost use Rattle.std.specs.Prelude.{◌≡◌, ◌+◌, ◌≤◌, ◌<◌, Some, None, IfSome, length, take, drop, option_map};
ghost use Rattle.cacao_vars.specs.Names.{IsName};
ghost use Rattle.cacao_cond.specs.Reading.{skipped, begins, behind, behind_joint, op_at, digit_run, behind_digits, negative_of, positive_of, whole_at, reference_at, opening_at};

use crate::trees::Op;
use base_decimals::read_number;
use cacao_vars::leading_reference;

// The text without the spaces before it.
pub fn skip(text: &[u8]) -> &[u8]
    ensures { result.now ≡ skipped text.now }
{
    let mut rest = text;
    while let [b' ', others @ ..] = rest {
        rest = others;
    }
    rest
}

// Whether the text begins with this byte.
pub fn begins_with(byte: u8, text: &[u8]) -> bool
    ensures { result ≡ begins byte text.now }
{
    match text {
        [first, ..] => *first == byte,
        [] => false,
    }
}

// What is left behind a word.
pub fn behind_word<'a>(word: &[u8], text: &'a [u8]) -> Option<&'a [u8]>
    ensures { option_map (λ r. r.now) result ≡ behind word.now text.now }
{
    if text.starts_with(word) {
        Some(&text[word.len()..])
    } else {
        None
    }
}

// What is left behind a connective with spaces on both sides.
pub fn behind_connective<'a>(word: &[u8], text: &'a [u8]) -> Option<&'a [u8]>
    ensures { option_map (λ r. r.now) result ≡ behind_joint word.now text.now }
{
    if !begins_with(b' ', text) {
        return None;
    }
    match behind_word(word, skip(text)) {
        Some(rest) => {
            if begins_with(b' ', rest) {
                Some(skip(rest))
            } else {
                None
            }
        }
        None => None,
    }
}

// The operator at the front.
pub fn operator(text: &[u8]) -> Option<(Op, &[u8])>
    ensures { option_map (λ r. (r.0, r.1.now)) result ≡ op_at text.now }
{
    match text {
        [b'=', b'=', rest @ ..] => Some((Op::Equal, rest)),
        [b'=', rest @ ..] => Some((Op::Equal, rest)),
        [b'!', b'=', rest @ ..] => Some((Op::Unequal, rest)),
        [b'<', b'>', rest @ ..] => Some((Op::Unequal, rest)),
        [b'<', b'=', rest @ ..] => Some((Op::AtMost, rest)),
        [b'<', rest @ ..] => Some((Op::Less, rest)),
        [b'>', b'=', rest @ ..] => Some((Op::AtLeast, rest)),
        [b'>', rest @ ..] => Some((Op::More, rest)),
        _ => None,
    }
}

// How many digits the text begins with.
fn digits_len(text: &[u8]) -> usize
    ensures within { result ≤ length text.now }
    ensures run { take result text.now ≡ digit_run text.now }
    ensures rest { drop result text.now ≡ behind_digits text.now }
{
    let mut len = 0;
    for byte in text {
        if !byte.is_ascii_digit() {
            break;
        }
        len += 1;
    }
    len
}

fn negative(magnitude: u64) -> Option<i64>
    ensures { result ≡ negative_of magnitude }
{
    if magnitude == 0 || magnitude > 0x8000_0000_0000_0000 {
        return None;
    }
    Some(-((magnitude - 1) as i64) - 1)
}

fn positive(magnitude: u64) -> Option<i64>
    ensures { result ≡ positive_of magnitude }
{
    if magnitude > 0x7fff_ffff_ffff_ffff {
        return None;
    }
    Some(magnitude as i64)
}

// The whole number at the front.
pub fn whole(text: &[u8]) -> Option<(i64, &[u8])>
    ensures { option_map (λ r. (r.0, r.1.now)) result ≡ whole_at text.now }
{
    if begins_with(b'-', text) {
        let digits = &text[1..];
        let len = digits_len(digits);
        let value = negative(read_number(&digits[..len], u64::MAX)?)?;
        Some((value, &digits[len..]))
    } else {
        let len = digits_len(text);
        let value = positive(read_number(&text[..len], u64::MAX)?)?;
        Some((value, &text[len..]))
    }
}

// The name of the reference at the front, and what is left behind it.
pub fn reference(text: &[u8]) -> Option<(&str, &[u8])>
    ensures exact { option_map (λ r. (r.0.now, r.1.now)) result ≡ reference_at text.now }
    ensures name { IfSome result (λ r. IsName r.0.now) }
{
    let Some(len) = leading_reference(text) else {
        return None;
    };
    match std::str::from_utf8(&text[..len]) {
        Ok(name) => Some((name, &text[len + 6..])),
        Err(_) => None,
    }
}

// What is left behind `IN` and an opening parenthesis, with a space before it.
pub fn opening(text: &[u8]) -> Option<&[u8]>
    ensures { option_map (λ r. r.now) result ≡ opening_at text.now }
{
    if !begins_with(b' ', text) {
        return None;
    }
    let Some(rest) = behind_word(b"IN", skip(text)) else {
        return None;
    };
    match behind_word(b"(", skip(rest)) {
        Some(rest) => Some(skip(rest)),
        None => None,
    }
}
