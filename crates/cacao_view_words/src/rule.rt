// The rules that are explained.
ghost use Rattle.std.specs.Prelude.{◌≡◌, ◌≤◌, option_map};
ghost use Rattle.std.specs.List.{list_all};
ghost use Rattle.cacao_view_words.specs.Texts.{AreLines, lines_in};
ghost use Rattle.base_decimals.specs.Numbers.{number};
ghost use Rattle.cacao_view_words.specs.Rules.{are_digits, bind_lines, book_lines, is_digit, is_like_rule, is_rule_letter, numbered, rule_in, rule_of, rule_lines};

use crate::rule_texts::{
    B1, B2, B3, K1, K2, K3, K4, K5, K6, K7, K8, K9, K10, K11, K12, K13, K14, K15, K16, K17, K18,
    K19, K20, K21, K22, K23, K24, K25,
};
use base_decimals::read_number;

/// The rules of playbooks.
const BOOK_RULES: u64 = 25;

/// The rules of bindings.
const BIND_RULES: u64 = 3;

/// A rule, by its number.
#[derive(Clone, Copy)]
pub enum Rule {
    /// A rule of playbooks, K1 to K25.
    Book(u8),
    /// A rule of bindings, B1 to B3.
    Bind(u8),
}

impl Rule {
    /// Its sentence, and how a break of it is usually mended, a line each.
    pub fn lines(self) -> &'static [&'static str]
        ensures value { lines_in result.now ≡ rule_lines (rule_of self) }
        ensures whole { AreLines (lines_in result.now) }
    {
        match self {
            Rule::Book(number) => book_lines(number),
            Rule::Bind(number) => bind_lines(number),
        }
    }
}

/// The rule of this name, which is a letter and a number.
pub(crate) fn rule_in(word: &str) -> Option<Rule>
    ensures { option_map rule_of result ≡ rule_in word.now }
{
    match word.as_bytes() {
        [b'K', digits @ ..] => Some(Rule::Book(numbered(digits, BOOK_RULES)?)),
        [b'B', digits @ ..] => Some(Rule::Bind(numbered(digits, BIND_RULES)?)),
        _ => None,
    }
}

/// The number from 1 on that these digits are.
fn numbered(digits: &[u8], most: u64) -> Option<u8>
    requires { most ≤ 25 }
    ensures { result ≡ numbered most digits.now }
{
    let number = read_number(digits, most)?;
    if number >= 1 {
        Some(number as u8)
    } else {
        None
    }
}

/// Whether a word is a letter of the names of rules, small or not, and digits.
pub(crate) fn is_like_rule(word: &[u8]) -> bool
    ensures { result ≡ is_like_rule word.now }
{
    match word {
        [letter, digits @ ..] => is_rule_letter(*letter) && are_digits(digits),
        [] => false,
    }
}

fn is_rule_letter(letter: u8) -> bool
    ensures { result ≡ is_rule_letter letter }
{
    (letter == b'K' || letter == b'k') || (letter == b'B' || letter == b'b')
}

/// Whether these are digits, at least one.
fn are_digits(text: &[u8]) -> bool
    ensures { result ≡ are_digits text.now }
{
    !text.is_empty() && each_is_digit(text)
}

fn each_is_digit(text: &[u8]) -> bool
    ensures { result ≡ list_all is_digit text.now }
{
    text.iter().all(|c| is_digit(*c))
}

fn is_digit(c: u8) -> bool
    ensures { result ≡ is_digit c }
{
    b'0' <= c && c <= b'9'
}

/// What is said of a rule of playbooks; nothing where there is none of this number.
fn book_lines(number: u8) -> &'static [&'static str]
    ensures value { lines_in result.now ≡ book_lines number }
    ensures whole { AreLines (lines_in result.now) }
{
    match number {
        1 => K1,
        2 => K2,
        3 => K3,
        4 => K4,
        5 => K5,
        6 => K6,
        7 => K7,
        8 => K8,
        9 => K9,
        10 => K10,
        11 => K11,
        12 => K12,
        13 => K13,
        14 => K14,
        15 => K15,
        16 => K16,
        17 => K17,
        18 => K18,
        19 => K19,
        20 => K20,
        21 => K21,
        22 => K22,
        23 => K23,
        24 => K24,
        25 => K25,
        _ => &[],
    }
}

/// What is said of a rule of bindings; nothing where there is none of this number.
fn bind_lines(number: u8) -> &'static [&'static str]
    ensures value { lines_in result.now ≡ bind_lines number }
    ensures whole { AreLines (lines_in result.now) }
{
    match number {
        1 => B1,
        2 => B2,
        3 => B3,
        _ => &[],
    }
}
