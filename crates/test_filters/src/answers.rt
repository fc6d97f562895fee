// What a row answers.
use crate::filters::Filter;
use crate::queues::Queue;
use crate::{graphs, messages, nets, numbers, records, rules, shadows};
use std::alloc::{AllocError, Global};
use std::str::from_utf8;
use test_rows::Row;

/// The answer of a row that asks for something unknown.
pub(crate) fn unknown(alloc: Global) -> Result<String, AllocError> {
    String::from_str(alloc, "an unknown row")
}

/// The answer where nothing was read.
pub(crate) fn none(alloc: Global) -> Result<String, AllocError> {
    String::from_str(alloc, "none")
}

/// A number, or that there is none.
pub(crate) fn number_or_none(alloc: Global, number: Option<u64>) -> Result<String, AllocError> {
    match number {
        Some(number) => format!(in alloc; "{number}"),
        None => none(alloc),
    }
}

/// A text, or the word for none where it is empty.
pub(crate) fn text_or_none(alloc: Global, text: &str) -> Result<String, AllocError> {
    if text.is_empty() {
        return none(alloc);
    }
    String::from_str(alloc, text)
}

/// A status, the number of a rule, and a text where there is one.
pub(crate) fn said(
    alloc: Global,
    status: u16,
    rule: u32,
    text: &str,
) -> Result<String, AllocError> {
    if text.is_empty() {
        return format!(in alloc; "{status} {rule}");
    }
    format!(in alloc; "{status} {rule} {text}")
}

/// `true` or `false`.
pub(crate) fn truth(alloc: Global, holds: bool) -> Result<String, AllocError> {
    let word = if holds { "true" } else { "false" };
    String::from_str(alloc, word)
}

/// The text with these bytes, where they are UTF-8.
pub(crate) fn text_of(bytes: &[u8]) -> &str {
    match from_utf8(bytes) {
        Ok(text) => text,
        Err(_) => "no UTF-8",
    }
}

/// The parts of a text between its spaces; none of the empty text.
pub(crate) fn words(alloc: Global, text: &str) -> Result<Vec<&str>, AllocError> {
    let mut words = Vec::new(alloc);
    for word in text.split(' ') {
        if !word.is_empty() {
            words.push(word)?;
        }
    }
    Ok(words)
}

/// The number that a text is in decimal; 0 where it is none.
pub(crate) fn number_of(text: &str) -> u64 {
    match text.parse::<u64>() {
        Ok(number) => number,
        Err(_) => 0,
    }
}

/// The same below 2 ^ 32.
pub(crate) fn place_of(text: &str) -> u32 {
    match text.parse::<u32>() {
        Ok(number) => number,
        Err(_) => 0,
    }
}

/// What stands from row to row.
#[derive(Drop)]
pub(crate) struct Answers {
    filter: Filter,
    queue: Queue,
}

impl Answers {
    /// Before the first row.
    pub(crate) fn new(alloc: Global) -> Answers {
        Answers {
            filter: Filter::new(alloc),
            queue: Queue::new(alloc),
        }
    }

    /// What a row of the file of this name answers.
    pub(crate) fn answer(
        &mut self,
        alloc: Global,
        file: &str,
        row: &Row,
    ) -> Result<String, AllocError> {
        match file {
            "base_decimals" => numbers::answer(alloc, row),
            "oc2_nets" => nets::answer(alloc, row),
            "oc2_msg" => messages::answer(alloc, row),
            "slpf_rules" => rules::answer(alloc, &mut self.filter, row),
            "slpf_shadow" => shadows::answer(alloc, row),
            "run_records" => records::answer(alloc, row),
            "base_graphs" => graphs::answer(alloc, row),
            "base_dues" => self.queue.answer(alloc, row),
            _ => unknown(alloc),
        }
    }
}
