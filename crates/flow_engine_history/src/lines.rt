// The line of a record.
ghost use Rattle.std.specs.Prelude.{◌≡◌, ◌∷◌, ◌++◌, ◌<◌, [], Some, IfOk, OnOk, codes, decimal, length, slice_get};
ghost use Rattle.run_records.specs.Ranges.{InRange};
ghost use Rattle.cacao_text.specs.Canon.{string_text};
ghost use Rattle.std.specs.Prelude.{IsUtf8};
ghost use Rattle.flow_core_rules.specs.Lines.{line, record_line, said};
ghost use Rattle.flow_core_rules.specs.State.{Shown};
ghost use Rattle.flow_engine_history.specs.Histories.{IsLineAt};
ghost use Rattle.flow_engine_history.specs.LineParts.{IsKeyAt, IsKeyFor, key_at};

use crate::history::{History, Stand};
use base_lines::{add, add_decimal, add_number, add_word};
use cacao_site::Bytes;
use cacao_text::canonical_string;
use flow_core::{Setup, moment_of};
use run_records::{Record, read_record};
use std::alloc::{AllocError, Global};
use std::str::from_utf8;

/// Ends the line.
fn end(out: &mut Vec<u8>) -> Result<(), AllocError>
    ensures { OnOk result (out.new.items ≡ out.old.items ++ line []) }
{
    add(out, b"\n")
}

/// Adds a word and a number, and the end of the line.
fn add_one(out: &mut Vec<u8>, word: &[u8], number: u64) -> Result<(), AllocError>
    ensures { OnOk result (out.new.items ≡ out.old.items ++ line (word.now ∷ decimal number ∷ [])) }
{
    add_word(out, word)?;
    add_number(out, number)?;
    end(out)
}

/// Adds a word and two numbers, and the end of the line.
fn add_two(out: &mut Vec<u8>, word: &[u8], first: u64, second: u64) -> Result<(), AllocError>
    ensures { OnOk result (out.new.items ≡ out.old.items ++ line (word.now ∷ decimal first ∷ decimal second ∷ [])) }
{
    add_word(out, word)?;
    add_number(out, first)?;
    add_number(out, second)?;
    end(out)
}

/// Adds a word, a number and a text, and the end of the line.
fn add_text(out: &mut Vec<u8>, word: &[u8], number: u64, text: &[u8]) -> Result<(), AllocError>
    ensures { OnOk result (out.new.items ≡ out.old.items ++ line (word.now ∷ decimal number ∷ text.now ∷ [])) }
{
    add_word(out, word)?;
    add_number(out, number)?;
    add_word(out, text)?;
    end(out)
}

/// The text of UTF-8 bytes as a string of JSON (RFC 8785).
fn quoted(alloc: Global, bytes: &Bytes) -> Result<Bytes, AllocError>
    requires { IsUtf8 bytes.now }
    ensures { IfOk result (λ text. text ≡ string_text bytes.now) }
{
    match from_utf8(bytes.as_slice()) {
        Ok(text) => {
            let canonical = canonical_string(alloc, text)?;
            Ok(Bytes::from_vec(canonical.into_vec()))
        }
        Err(_) => unreachable!(),
    }
}

/// Adds what an Ask says, and the end of the line.
fn add_question(
    alloc: Global,
    out: &mut Vec<u8>,
    issue: u32,
    bytes: &Bytes,
) -> Result<(), AllocError>
    requires { IsUtf8 bytes.now }
    ensures { OnOk result (out.new.items ≡ out.old.items ++ line (codes "ask" ∷ decimal issue ∷ string_text bytes.now ∷ [])) }
{
    let text = quoted(alloc, bytes)?;
    add_text(out, b"ask", issue as u64, text.as_slice())
}

/// Adds what a record says behind its number and its moment, by the key of the step at which the task of a Walk stood.
fn add_said(alloc: Global, out: &mut Vec<u8>, item: &Record, key: &str) -> Result<(), AllocError>
    requires { InRange item.now }
    ensures { (before : Shown) → IsKeyFor before item.now key.now
        → OnOk result (out.new.items ≡ out.old.items ++ line (said before item.now)) }
{
    match item {
        Record::Begin { run, .. } => add_one(out, b"begin", *run),
        Record::Walk { task, .. } => add_text(out, b"walk", *task as u64, key.as_bytes()),
        Record::Send { issue, agent, .. } => add_two(out, b"send", *issue as u64, *agent as u64),
        Record::Reply { issue, status, .. } => {
            add_two(out, b"reply", *issue as u64, *status as u64)
        }
        Record::Expire { issue, .. } => add_one(out, b"expire", *issue as u64),
        Record::Upgrade { version, .. } => add_one(out, b"upgrade", *version as u64),
        Record::Ask { issue, bytes, .. } => add_question(alloc, out, *issue, bytes),
        Record::Told { issue, status, .. } => {
            add_two(out, b"told", *issue as u64, *status as u64)
        }
    }
}

/// Adds the number and the moment of a record.
fn add_head(out: &mut Vec<u8>, n: u32, moment: u64) -> Result<(), AllocError>
    ensures { OnOk result (out.new.items ≡ out.old.items ++ (decimal n ++ 32 ∷ decimal moment)) }
{
    add_decimal(out, n as u64)?;
    add_number(out, moment)
}

/// The line of a record with this number, by the key of the step at which the task of a Walk stood.
fn line_by_key(alloc: Global, n: u32, item: &Record, key: &str) -> Result<Bytes, AllocError>
    requires { InRange item.now }
    ensures { (before : Shown) → IsKeyFor before item.now key.now
        → IfOk result (λ bytes. bytes ≡ record_line before n item.now) }
{
    let mut out = Vec::new(alloc);
    add_head(&mut out, n, moment_of(item))?;
    add_said(alloc, &mut out, item, key)?;
    Ok(Bytes::from_vec(out))
}

/// The key of a step, by the numbers of its playbook and of the step in it; the empty text where there is none.
fn key_at(setup: &Setup, stand: Stand) -> &str
    ensures { result.now ≡ key_at setup.now stand }
{
    let (book, step) = stand;
    match setup.step(book as u32, step as u32) {
        Some(found) => found.key.text(),
        None => "",
    }
}

impl History {
    /// The record with this number.
    fn record_at(&self, n: u32) -> Result<Record, AllocError>
        requires { n < length self.now.records }
        ensures there { IfOk result (λ item. slice_get self.now.records n ≡ Some item) }
        ensures in_range { IfOk result InRange }
    {
        match read_record(self.alloc, self.journal.entry(n))? {
            Some(item) => Ok(item),
            None => unreachable!(),
        }
    }

    /// The key of the step at which the task of a Walk with this number stood.
    fn key_of(&self, n: u32, item: &Record) -> &str
        requires { slice_get self.now.records n ≡ Some item.now }
        ensures { IsKeyAt self.now n item.now result.now }
    {
        self.flow.law();
        key_at(self.flow.setup(), self.stands[n as usize])
    }

    /// The line of the record with this number, with its line feed.
    pub fn line(&self, n: u32) -> Result<Bytes, AllocError>
        requires { n < length self.now.records }
        ensures { IfOk result (λ bytes. IsLineAt self.now n bytes) }
    {
        let item = self.record_at(n)?;
        self.line_of(n, &item)
    }

    /// The line of a record that is the one with this number, with its line feed. Nothing is read back.
    pub fn line_of(&self, n: u32, item: &Record) -> Result<Bytes, AllocError>
        requires { slice_get self.now.records n ≡ Some item.now }
        ensures { IfOk result (λ bytes. IsLineAt self.now n bytes) }
    {
        let key = self.key_of(n, item);
        line_by_key(self.alloc, n, item, key)
    }
}
