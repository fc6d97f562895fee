// How lines are read.
ghost use Rattle.std.specs.Prelude.{◌≡◌, ◌==◌, ◌≤◌, IfOk, IfSome, MatchOption, option_map};
ghost use Rattle.std.specs.List.{position};
ghost use Rattle.oc2_wire_lines.specs.Lines.{BeginsWithLine, IsOneLine, Reads};
ghost use Rattle.oc2_wire_lines.specs.LineReading.{behind_letter, cut, is_one_line, is_text, line_read, numbered, parcel_of};

use base_decimals::{MOST_EXACT, read_number};
use cacao_site::{Bytes, Parcel};
use std::alloc::{AllocError, Global};

// The most bytes of a text.
const MOST_TEXT: usize = 1_048_576;

// What stands in a line behind its letter.
#[derive(Clone, Copy)]
struct Fields<'a> {
    agent: u8,
    run: u64,
    issue: u32,
    text: &'a [u8],
}

fn place_of(byte: u8, text: &[u8]) -> Option<usize>
    ensures value { result ≡ position (λ c. c == byte) text.now }
{
    text.iter().position(|c| *c == byte)
}

// What stands before the first such byte, and what stands behind it.
#[tactic(auto, unfolding(crate::specs::LineReading::cut))]
fn cut(byte: u8, text: &[u8]) -> Option<(&[u8], &[u8])>
    ensures { option_map (λ x. (x.0.now, x.1.now)) result ≡ cut byte text.now }
{
    let place = place_of(byte, text)?;
    Some((&text[..place], &text[place + 1..]))
}

// A number and a space, and what stands behind them.
#[tactic(auto, unfolding(crate::specs::LineReading::numbered))]
fn numbered(most: u64, text: &[u8]) -> Option<(u64, &[u8])>
    ensures value { option_map (λ x. (x.0, x.1.now)) result ≡ numbered most text.now }
    ensures fits { IfSome result (λ x. x.0 ≤ most) }
{
    let (front, rest) = cut(b' ', text)?;
    let n = read_number(front, most)?;
    Some((n, rest))
}

// What stands behind the letter and its space.
#[tactic(auto, unfolding(crate::specs::LineReading::behind_letter))]
fn behind_letter(back: bool, line: &[u8]) -> Option<&[u8]>
    ensures { option_map (λ rest. rest.now) result ≡ behind_letter back line.now }
{
    let (front, rest) = cut(b' ', line)?;
    let letter = if back { b'r' } else { b'c' };
    if front.len() == 1 && front[0] == letter {
        Some(rest)
    } else {
        None
    }
}

// Whether no byte is a line feed.
#[tactic(auto, unfolding(crate::specs::LineReading::is_one_line))]
fn is_one_line(bytes: &[u8]) -> bool
    ensures { result ≡ is_one_line bytes.now }
{
    !bytes.contains(&b'\n')
}

// Whether the bytes are a text that a line can carry.
#[tactic(auto, unfolding(crate::specs::LineReading::is_text))]
pub(crate) fn is_text(bytes: &[u8]) -> bool
    ensures { result ≡ is_text bytes.now }
{
    is_one_line(bytes) && bytes.len() <= MOST_TEXT
}

#[tactic(auto, unfolding(crate::specs::LineReading::line_read))]
fn read_fields(back: bool, line: &[u8]) -> Option<Fields<'_>>
    ensures { option_map (parcel_of back) result ≡ line_read back line.now }
{
    let rest = behind_letter(back, line)?;
    let (agent, rest) = numbered(16, rest)?;
    let (run, rest) = numbered(MOST_EXACT, rest)?;
    let (issue, text) = numbered(4_294_967_295, rest)?;
    if agent >= 1 && run >= 1 && is_text(text) {
        Some(Fields {
            agent: agent as u8,
            run,
            issue: issue as u32,
            text,
        })
    } else {
        None
    }
}

/// The parcel whose line this is, without its line feed, at an end that gets replies (`back`) or commands. None exactly where
/// the line is no such parcel's: it is outside the grammar, of the other letter, or `n`.
pub fn read_line(alloc: Global, back: bool, line: &[u8]) -> Result<Option<Parcel>, AllocError>
    ensures { IfOk result (Reads back line.now) }
{
    let Some(fields) = read_fields(back, line) else {
        return Ok(None);
    };
    let bytes = Bytes::from_slice(alloc, fields.text)?;
    Ok(Some(Parcel {
        agent: fields.agent,
        back,
        run: fields.run,
        issue: fields.issue,
        bytes,
    }))
}

/// The first line of the bytes, without its line feed, and what stands behind it; None exactly where they have no line feed.
pub fn first_line(bytes: &[u8]) -> Option<(&[u8], &[u8])>
    ensures { MatchOption result (IsOneLine bytes.now) (λ parts. BeginsWithLine bytes.now parts.0.now parts.1.now) }
{
    cut(b'\n', bytes)
}
