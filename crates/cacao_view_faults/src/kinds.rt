// What kind of fault stands at a place of a text that is not JSON.
ghost use Rattle.std.specs.Prelude.{◌≡◌, ◌≢◌, ◌≤◌, IsTrue, length};
ghost use Rattle.cacao_view_faults.specs.Kinds.{AreWords, IsOfNoKind, byte_before, has_byte_order_mark, has_no_character, has_zero_bytes, is_no_character, is_utf16, is_utf32, kind_at, mark_at, mark_before, mark_with, words_of};

use crate::scan::{byte_at, is_space};
use std::str;

pub const BYTE_ORDER_MARK: &str =
    "a byte-order mark stands before the text: save it as UTF-8 without one";

pub const UTF_16: &str = "the text is in UTF-16: save it as UTF-8";

pub const ZERO_BYTES: &str = "the text is in UTF-16 or UTF-32: save it as UTF-8";

pub const NOT_UTF8: &str = "a byte that is not of UTF-8 stands here: save the text as UTF-8";

pub const ESCAPE: &str =
    "no escape begins so: \\\" \\\\ \\/ \\b \\f \\n \\r \\t and \\u with four hexadecimal digits do";

pub const CONTROL: &str =
    "a line break or another control character stands here: within a text write \\n for a line break";

pub const COMMENT: &str = "a comment: JSON has none";

pub const TRAILING_COMMA: &str =
    "a trailing comma: a value or a name was expected behind the last comma";

pub const SINGLE_QUOTE: &str = "single quotes: a text stands in double quotes";

/// What is said of a text that is not JSON where nothing else is known.
pub(crate) const NOT_JSON: &str = "the text is not JSON";

/// What stands at a place at which a text goes wrong.
#[derive(Clone, Copy)]
pub enum Kind {
    ByteOrderMark,
    Utf16,
    ZeroBytes,
    NotUtf8,
    Ends,
    Escape,
    Control,
    Comment,
    TrailingComma,
    SingleQuote,
    Other,
}

/// Whether the words differ from others.
fn differ(words: &str, others: &str) -> bool
    ensures { IsTrue result → words.now ≢ others.now }
{
    words != others
}

/// Whether no kind has these words.
fn is_of_no_kind(words: &str) -> bool
    ensures { IsTrue result → IsOfNoKind words.now }
{
    if !differ(words, BYTE_ORDER_MARK) {
        return false;
    }
    if !differ(words, UTF_16) {
        return false;
    }
    if !differ(words, ZERO_BYTES) {
        return false;
    }
    if !differ(words, NOT_UTF8) {
        return false;
    }
    if !differ(words, ESCAPE) {
        return false;
    }
    if !differ(words, CONTROL) {
        return false;
    }
    if !differ(words, COMMENT) {
        return false;
    }
    if !differ(words, TRAILING_COMMA) {
        return false;
    }
    differ(words, SINGLE_QUOTE)
}

fn not_json() -> &'static str
    ensures { IsOfNoKind result.now }
{
    NOT_JSON
}

/// These words, unless they are those of a kind: then what is said where nothing is known.
pub fn plain_words(words: &'static str) -> &'static str
    ensures { IsOfNoKind result.now }
{
    if is_of_no_kind(words) {
        return words;
    }
    not_json()
}

impl Kind {
    /// What is said of this kind; the other words, where no kind has them, if it has none of its own.
    pub fn words(self, other: &'static str) -> &'static str
        ensures { AreWords (words_of self) result.now }
    {
        match self {
            Kind::ByteOrderMark => BYTE_ORDER_MARK,
            Kind::Utf16 => UTF_16,
            Kind::ZeroBytes => ZERO_BYTES,
            Kind::NotUtf8 => NOT_UTF8,
            Kind::Ends => plain_words(other),
            Kind::Escape => ESCAPE,
            Kind::Control => CONTROL,
            Kind::Comment => COMMENT,
            Kind::TrailingComma => TRAILING_COMMA,
            Kind::SingleQuote => SINGLE_QUOTE,
            Kind::Other => plain_words(other),
        }
    }
}

fn has_byte_order_mark(bytes: &[u8]) -> bool
    ensures { result ≡ has_byte_order_mark bytes.now }
{
    byte_at(bytes, 0) == 239 && byte_at(bytes, 1) == 187 && byte_at(bytes, 2) == 191
}

fn is_utf16(bytes: &[u8]) -> bool
    ensures { result ≡ is_utf16 bytes.now }
{
    let first = byte_at(bytes, 0);
    let second = byte_at(bytes, 1);
    (first == 254 && second == 255) || (first == 255 && second == 254)
}

fn is_utf32(bytes: &[u8]) -> bool
    ensures { result ≡ is_utf32 bytes.now }
{
    let first = byte_at(bytes, 0);
    let second = byte_at(bytes, 1);
    let third = byte_at(bytes, 2);
    let fourth = byte_at(bytes, 3);
    bytes.len() >= 4
        && ((first == 0 && second == 0 && third == 254 && fourth == 255)
            || (first == 255 && second == 254 && third == 0 && fourth == 0))
}

fn has_zero_bytes(bytes: &[u8]) -> bool
    ensures { result ≡ has_zero_bytes bytes.now }
{
    bytes.len() >= 4
        && ((byte_at(bytes, 0) == 0 && byte_at(bytes, 2) == 0)
            || (byte_at(bytes, 1) == 0 && byte_at(bytes, 3) == 0))
}

/// Whether the bytes begin with no character of UTF-8.
fn has_no_character(bytes: &[u8]) -> bool
    ensures { result ≡ has_no_character bytes.now }
{
    match str::from_utf8(bytes) {
        Ok(_) => false,
        Err(error) => error.valid_up_to() == 0,
    }
}

fn is_no_character(bytes: &[u8], at: usize) -> bool
    requires { at ≤ length bytes.now }
    ensures { result ≡ is_no_character bytes.now at }
{
    has_no_character(&bytes[at..])
}

fn byte_before(bytes: &[u8], at: usize) -> u8
    ensures { result ≡ byte_before bytes.now at }
{
    if at == 0 {
        return 0;
    }
    byte_at(bytes, at - 1)
}

/// The last mark before one more byte.
fn mark_with(last: u8, byte: u8) -> u8
    ensures { result ≡ mark_with last byte }
{
    if is_space(byte) { last } else { byte }
}

/// The last byte before a place that is no white space; 0 where there is none.
fn mark_before(bytes: &[u8], at: usize) -> u8
    requires { at ≤ length bytes.now }
    ensures { result ≡ mark_before bytes.now at }
{
    let mut last = 0u8;
    for n in 0..at {
        last = mark_with(last, bytes[n]);
    }
    last
}

fn mark_at(byte: u8, before: u8, mark: u8) -> Kind
    ensures { result ≡ mark_at byte before mark }
{
    if byte < 32 {
        return Kind::Control;
    }
    if before == b'\\' {
        return Kind::Escape;
    }
    if byte == b'/' || byte == b'#' {
        return Kind::Comment;
    }
    if (byte == b']' || byte == b'}') && mark == b',' {
        return Kind::TrailingComma;
    }
    if byte == b'\'' {
        return Kind::SingleQuote;
    }
    Kind::Other
}

/// What stands at a place at which the text goes wrong.
pub fn kind_at(bytes: &[u8], at: usize) -> Kind
    ensures { result ≡ kind_at bytes.now at }
{
    if has_byte_order_mark(bytes) {
        return Kind::ByteOrderMark;
    }
    if is_utf32(bytes) || has_zero_bytes(bytes) {
        return Kind::ZeroBytes;
    }
    if is_utf16(bytes) {
        return Kind::Utf16;
    }
    if at >= bytes.len() {
        return Kind::Ends;
    }
    if is_no_character(bytes, at) {
        return Kind::NotUtf8;
    }
    mark_at(
        byte_at(bytes, at),
        byte_before(bytes, at),
        mark_before(bytes, at),
    )
}
