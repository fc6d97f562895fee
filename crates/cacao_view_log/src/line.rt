// The lines that sessions say of records.
ghost use Rattle.std.specs.Prelude.{◌≡◌, ◌∷◌, ◌++◌, [], IfOk, IsUtf8, codes, decimal};
ghost use Rattle.cacao_text.specs.Canon.{string_text};
ghost use Rattle.run_records.specs.Ranges.{InRange};
ghost use Rattle.flow_core_rules.specs.Lines.{line, record_line};
ghost use Rattle.flow_core_rules.specs.State.{Shown};
ghost use Rattle.flow_engine_history.specs.LineParts.{IsKeyFor};

use cacao_site::Bytes;
use cacao_text::canonical_string;
use run_records::Record;
use std::alloc::{AllocError, Global};
use std::str::from_utf8;

/// The number of a record, its moment, a word and a number.
fn line_of_one(
    alloc: Global,
    n: u32,
    moment: u64,
    word: &str,
    number: u64,
) -> Result<Bytes, AllocError>
    ensures { IfOk result (λ bytes. bytes
        ≡ decimal n ++ line (decimal moment ∷ word.now ∷ decimal number ∷ [])) }
{
    let text = format!(in alloc; "{n} {moment} {word} {number}\n")?;
    Ok(Bytes::from_vec(text.into_bytes()))
}

/// The number of a record, its moment, a word and two numbers.
fn line_of_two(
    alloc: Global,
    n: u32,
    moment: u64,
    word: &str,
    first: u32,
    second: u32,
) -> Result<Bytes, AllocError>
    ensures { IfOk result (λ bytes. bytes
        ≡ decimal n ++ line (decimal moment ∷ word.now ∷ decimal first ∷ decimal second ∷ [])) }
{
    let text = format!(in alloc; "{n} {moment} {word} {first} {second}\n")?;
    Ok(Bytes::from_vec(text.into_bytes()))
}

/// The number of a record, its moment, a word, a number and a text.
fn line_of_text(
    alloc: Global,
    n: u32,
    moment: u64,
    word: &str,
    number: u32,
    text: &[u8],
) -> Result<Bytes, AllocError>
    ensures { IfOk result (λ bytes. bytes
        ≡ decimal n ++ line (decimal moment ∷ word.now ∷ decimal number ∷ text.now ∷ [])) }
{
    let mut line = format!(in alloc; "{n} {moment} {word} {number} ")?.into_bytes();
    line.extend_from_slice(text)?;
    line.push(b'\n')?;
    Ok(Bytes::from_vec(line))
}

/// The line of an Ask: its text as a string of JSON.
fn line_of_question(
    alloc: Global,
    n: u32,
    moment: u64,
    issue: u32,
    bytes: &Bytes,
) -> Result<Bytes, AllocError>
    requires { IsUtf8 bytes.now }
    ensures { IfOk result (λ line_bytes. line_bytes
        ≡ decimal n ++ line (decimal moment ∷ codes "ask" ∷ decimal issue ∷ string_text bytes.now ∷ [])) }
{
    match from_utf8(bytes.as_slice()) {
        Ok(text) => {
            let quoted = canonical_string(alloc, text)?;
            line_of_text(alloc, n, moment, "ask", issue, quoted.as_slice())
        }
        Err(_) => unreachable!(),
    }
}

/// The line that the session said of the record with this number. Of a Walk `step` is the key of the step at which its task stood.
pub(crate) fn record_line(
    alloc: Global,
    n: u32,
    step: &str,
    item: &Record,
) -> Result<Bytes, AllocError>
    requires { InRange item.now }
    ensures { (before : Shown) → IsKeyFor before item.now step.now
        → IfOk result (λ bytes. bytes ≡ record_line before n item.now) }
{
    match item {
        Record::Begin { run, moment, .. } => line_of_one(alloc, n, *moment, "begin", *run),
        Record::Walk { task, moment } => {
            line_of_text(alloc, n, *moment, "walk", *task, step.as_bytes())
        }
        Record::Send {
            issue,
            agent,
            moment,
            ..
        } => line_of_two(alloc, n, *moment, "send", *issue, *agent as u32),
        Record::Reply {
            issue,
            moment,
            status,
            ..
        } => line_of_two(alloc, n, *moment, "reply", *issue, *status as u32),
        Record::Expire { issue, moment } => {
            line_of_one(alloc, n, *moment, "expire", *issue as u64)
        }
        Record::Upgrade { version, moment } => {
            line_of_one(alloc, n, *moment, "upgrade", *version as u64)
        }
        Record::Ask {
            issue,
            moment,
            bytes,
            ..
        } => line_of_question(alloc, n, *moment, *issue, bytes),
        Record::Told {
            issue,
            moment,
            status,
            ..
        } => line_of_two(alloc, n, *moment, "told", *issue, *status as u32),
    }
}
