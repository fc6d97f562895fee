// Words of answers.
use cacao_vars::Kind;
use std::alloc::{AllocError, Global};
use std::str::from_utf8;

/// A word.
pub(crate) fn word(alloc: Global, text: &str) -> Result<String, AllocError> {
    String::from_str(alloc, text)
}

/// The text of these bytes.
pub(crate) fn text_of(alloc: Global, bytes: &[u8]) -> Result<String, AllocError> {
    match from_utf8(bytes) {
        Ok(text) => word(alloc, text),
        Err(_) => word(alloc, "no text"),
    }
}

/// That there is none.
pub(crate) fn none(alloc: Global) -> Result<String, AllocError> {
    word(alloc, "none")
}

/// What a row is told whose first field is not known.
pub(crate) fn unknown(alloc: Global) -> Result<String, AllocError> {
    word(alloc, "(no such row)")
}

/// Whether a text is of a grammar.
pub(crate) fn accepted(alloc: Global, is: bool) -> Result<String, AllocError> {
    word(alloc, if is { "accepted" } else { "none" })
}

/// Whether something was read of a text.
pub(crate) fn is_read<T: Drop>(
    alloc: Global,
    found: Result<Option<T>, AllocError>,
) -> Result<String, AllocError> {
    let is = found?.is_some();
    accepted(alloc, is)
}

/// Yes or no.
pub(crate) fn yes(alloc: Global, is: bool) -> Result<String, AllocError> {
    word(alloc, if is { "yes" } else { "no" })
}

/// Whether there is something.
pub(crate) fn some(alloc: Global, is: bool) -> Result<String, AllocError> {
    word(alloc, if is { "some" } else { "none" })
}

/// A number, or that there is none.
pub(crate) fn number_or_none(alloc: Global, number: Option<u32>) -> Result<String, AllocError> {
    match number {
        Some(number) => format!(in alloc; "{number}"),
        None => none(alloc),
    }
}

/// Adds a word to a list, behind a comma.
pub(crate) fn add_word(list: &mut String, word: &str) -> Result<(), AllocError> {
    if !list.is_empty() {
        list.push(',')?;
    }
    list.push_str(word)
}

/// Adds a number to a list, behind a comma.
pub(crate) fn add_number(
    alloc: Global,
    list: &mut String,
    number: usize,
) -> Result<(), AllocError> {
    let text = format!(in alloc; "{number}")?;
    add_word(list, text.as_str())
}

/// The name of a kind of variables.
pub(crate) fn kind_word(kind: &Kind) -> &'static str {
    match kind {
        Kind::String => "String",
        Kind::Bool => "Bool",
        Kind::Integer => "Integer",
        Kind::Long => "Long",
        Kind::Ipv4Addr => "Ipv4Addr",
        Kind::Ipv6Addr => "Ipv6Addr",
        Kind::MacAddr => "MacAddr",
        Kind::Uri => "Uri",
        Kind::Uuid => "Uuid",
        Kind::Hexstring => "Hexstring",
        Kind::Other(_) => "Other",
    }
}
