// A line of operators' answers.
ghost use Rattle.std.specs.Prelude.{◌≡◌, ◌==◌, ◌≤◌, IfSome, option_map};
ghost use Rattle.std.specs.List.{position};
ghost use Rattle.std.specs.Str.{is_utf8};
ghost use Rattle.flow_core_rules.specs.Changes.{is_final};
ghost use Rattle.flow_engine_answers.specs.AnswerReading.{cut, numbered, last_parts, final_status, is_text, ending, line_told, first_told, told_of};

use base_decimals::{MOST_EXACT, read_number};
use std::str;

// The most bytes of the text of an answer.
const MOST_TEXT: usize = 4_096;

/// What a line tells, and of which run.
#[derive(Clone, Copy)]
pub struct ToldLine<'a> {
    pub run: u64,
    pub issue: u32,
    pub status: u16,
    pub text: &'a [u8],
}

fn place_of(byte: u8, text: &[u8]) -> Option<usize>
    ensures value { result ≡ position (λ c. c == byte) text.now }
{
    text.iter().position(|c| *c == byte)
}

// What stands before the first such byte, and what stands behind it.
#[tactic(auto, unfolding(crate::specs::AnswerReading::cut))]
fn cut(byte: u8, text: &[u8]) -> Option<(&[u8], &[u8])>
    ensures { option_map (λ x. (x.0.now, x.1.now)) result ≡ cut byte text.now }
{
    let place = place_of(byte, text)?;
    Some((&text[..place], &text[place + 1..]))
}

// A number and a space, and what stands behind them.
#[tactic(auto, unfolding(crate::specs::AnswerReading::numbered))]
fn numbered(most: u64, text: &[u8]) -> Option<(u64, &[u8])>
    ensures value { option_map (λ x. (x.0, x.1.now)) result ≡ numbered most text.now }
    ensures fits { IfSome result (λ x. x.0 ≤ most) }
{
    let (front, rest) = cut(b' ', text)?;
    let n = read_number(front, most)?;
    Some((n, rest))
}

// What stands before the first space and what stands behind it; all and nothing where there is none.
#[tactic(auto, unfolding(crate::specs::AnswerReading::last_parts))]
fn last_parts(text: &[u8]) -> (&[u8], &[u8])
    ensures { (result.0.now, result.1.now) ≡ last_parts text.now }
{
    match cut(b' ', text) {
        Some(parts) => parts,
        None => (text, &[]),
    }
}

fn is_final(status: u16) -> bool
    ensures { result ≡ is_final status }
{
    matches!(status, 200 | 400 | 401 | 403 | 404 | 500 | 501 | 503)
}

#[tactic(auto, unfolding(crate::specs::AnswerReading::final_status))]
fn final_status(text: &[u8]) -> Option<u16>
    ensures { result ≡ final_status text.now }
{
    let status = read_number(text, 65_535)? as u16;
    if is_final(status) { Some(status) } else { None }
}

fn is_utf8(text: &[u8]) -> bool
    ensures { result ≡ is_utf8 text.now }
{
    str::from_utf8(text).is_ok()
}

#[tactic(auto, unfolding(crate::specs::AnswerReading::is_text))]
fn is_text(text: &[u8]) -> bool
    ensures { result ≡ is_text text.now }
{
    is_utf8(text) && text.len() <= MOST_TEXT
}

// The status at the end of a line, and the text behind it.
#[tactic(auto, unfolding(crate::specs::AnswerReading::ending))]
fn ending(text: &[u8]) -> Option<(u16, &[u8])>
    ensures { option_map (λ x. (x.0, x.1.now)) result ≡ ending text.now }
{
    let (front, rest) = last_parts(text);
    let status = final_status(front)?;
    if is_text(rest) {
        Some((status, rest))
    } else {
        None
    }
}

#[tactic(auto, unfolding(crate::specs::AnswerReading::line_told))]
fn read_line(line: &[u8]) -> Option<ToldLine<'_>>
    ensures { option_map told_of result ≡ line_told line.now }
{
    let (run, rest) = numbered(MOST_EXACT, line)?;
    let (issue, rest) = numbered(4_294_967_295, rest)?;
    let (status, text) = ending(rest)?;
    if run >= 1 {
        Some(ToldLine {
            run,
            issue: issue as u32,
            status,
            text,
        })
    } else {
        None
    }
}

/// What the first line of a text tells, and what stands behind the line; None where there is no such line.
#[tactic(auto, unfolding(crate::specs::AnswerReading::first_told))]
pub fn read_first(text: &[u8]) -> Option<(ToldLine<'_>, &[u8])>
    ensures { option_map (λ x. (told_of x.0, x.1.now)) result ≡ first_told text.now }
{
    let (line, rest) = cut(b'\n', text)?;
    let told = read_line(line)?;
    Some((told, rest))
}
