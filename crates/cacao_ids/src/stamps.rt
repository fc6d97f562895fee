// Stamps.
ghost use Rattle.std.specs.Prelude.{◌≡◌, ◌≢◌, ◌↔◌, ◌≤◌, ◌+◌, ◌/◌, ◌%◌, ℕ, IsTrue, IsSome, IfOk, IfSome, MatchOption, nat_eq};
ghost use Rattle.std.specs.Cmp;
ghost use Rattle.std.specs.Cmp.Lexicographic.{pointwise, slice_cmp, nat_list_eq_equiv, nat_list_cmp_total, texts_ties, texts_po};
ghost use Rattle.std.specs.List.{list_all};
ghost use Rattle.std.specs.Ordering.{nat_cmp, as_partial_cmp};
ghost use Rattle.std.proofs.Common.{refl};
ghost use Rattle.cacao_ids.specs.Calendar.{IsDate};
ghost use Rattle.cacao_ids.specs.Stamps.{IsDateText, IsTimeText, IsFraction, IsStamp, is_digit, date_text, time_text};

use jiff::civil::Date;
use std::alloc::{AllocError, Global};
use std::cmp::Ordering;
use std::marker::Model;

/// A stamp, the moment at which a playbook was made or changed (the timestamp data type of CACAO 2.0):
/// `YYYY-MM-DDThh:mm:ss`, perhaps a point and one to nine digits, and `Z` (RFC 3339, section 5.6).
#[derive(Clone, Drop)]
pub struct Stamp {
    text: String,
}

impl Model for Stamp {
    ghost use Rattle.std.specs.Prelude.{List, ℕ};
    ghost use Rattle.std.specs.String.{string_bytes};
    ghost use Rattle.cacao_ids.specs.Stamps.{IsStamp};

    ghost Value = { List ℕ };

    ghost view = { λ stamp. string_bytes stamp.text };

    ghost invariant = { λ stamp. IsStamp (string_bytes stamp.text) };
}

// The number that two digits spell.
fn number_of(tens: u8, ones: u8) -> Option<u8>
    ensures { MatchOption result ((n : ℕ) → n ≤ 99 → tens ≡ 48 + n / 10 → ones ≢ 48 + n % 10)
        (λ n. (n ≤ 99) × (tens ≡ 48 + n / 10) × (ones ≡ 48 + n % 10)) }
{
    match (tens, ones) {
        (b'0'..=b'9', b'0'..=b'9') => Some((tens - b'0') * 10 + (ones - b'0')),
        _ => None,
    }
}

// The year, the month and the day that a text spells, of the calendar or not.
fn date_of(text: &[u8]) -> Option<(u16, u8, u8)>
    ensures { MatchOption result ((year month day : ℕ) → year ≤ 9999 → month ≤ 99 → day ≤ 99 → text.now ≢ date_text year month day)
        (λ date. (date.0 ≤ 9999) × (date.1 ≤ 99) × (date.2 ≤ 99) × (text.now ≡ date_text date.0 date.1 date.2)) }
{
    if text.len() != 10 || text[4] != b'-' || text[7] != b'-' {
        return None;
    }
    let century = number_of(text[0], text[1])?;
    let year = number_of(text[2], text[3])?;
    let month = number_of(text[5], text[6])?;
    let day = number_of(text[8], text[9])?;
    Some((u16::from(century) * 100 + u16::from(year), month, day))
}

// Whether the calendar has the date.
fn has_date(year: u16, month: u8, day: u8) -> bool
    requires year { year ≤ 9999 }
    requires month { month ≤ 99 }
    requires day { day ≤ 99 }
    ensures { IsTrue result ↔ IsDate year month day }
{
    Date::new(year as i16, month as i8, day as i8).is_ok()
}

// Whether the text is a date of the calendar.
fn is_date(text: &[u8]) -> bool
    ensures { IsTrue result ↔ IsDateText text.now }
{
    match date_of(text) {
        Some((year, month, day)) => has_date(year, month, day),
        None => false,
    }
}

// The hour, the minute and the second that a text spells, of a day or not.
fn time_of(text: &[u8]) -> Option<(u8, u8, u8)>
    ensures { MatchOption result ((hour minute second : ℕ) → hour ≤ 99 → minute ≤ 99 → second ≤ 99 → text.now ≢ time_text hour minute second)
        (λ time. (time.0 ≤ 99) × (time.1 ≤ 99) × (time.2 ≤ 99) × (text.now ≡ time_text time.0 time.1 time.2)) }
{
    if text.len() != 8 || text[2] != b':' || text[5] != b':' {
        return None;
    }
    let hour = number_of(text[0], text[1])?;
    let minute = number_of(text[3], text[4])?;
    let second = number_of(text[6], text[7])?;
    Some((hour, minute, second))
}

// Whether the text is a time of a day.
fn is_time(text: &[u8]) -> bool
    ensures { IsTrue result ↔ IsTimeText text.now }
{
    match time_of(text) {
        Some((hour, minute, second)) => hour <= 23 && minute <= 59 && second <= 59,
        None => false,
    }
}

// Whether each character is a decimal digit.
fn are_digits(text: &[u8]) -> bool
    ensures { result ≡ list_all is_digit text.now }
{
    text.iter().all(|digit| digit.is_ascii_digit())
}

// Whether the text is empty, or a point and one to nine digits.
fn is_fraction(text: &[u8]) -> bool
    ensures { IsTrue result ↔ IsFraction text.now }
{
    let Some((point, digits)) = text.split_first() else {
        return true;
    };
    if *point != b'.' || digits.is_empty() || digits.len() > 9 {
        return false;
    }
    are_digits(digits)
}

// Whether the text is a stamp.
fn is_stamp(text: &[u8]) -> bool
    ensures { IsTrue result ↔ IsStamp text.now }
{
    let len = text.len();
    if len < 20 || text[10] != b'T' || text[len - 1] != b'Z' {
        return false;
    }
    if !is_date(&text[..10]) || !is_time(&text[11..19]) {
        return false;
    }
    is_fraction(&text[19..len - 1])
}

impl Stamp {
    /// The stamp with this text; None where the text is none.
    pub fn read(alloc: Global, text: &str) -> Result<Option<Stamp>, AllocError>
        ensures grammar { IfOk result (λ found. IsSome found ↔ IsStamp text.now) }
        ensures value { IfOk result (λ found. IfSome found (λ stamp. stamp ≡ text.now)) }
    {
        if !is_stamp(text.as_bytes()) {
            return Ok(None);
        }
        let text = String::from_str(alloc, text)?;
        Ok(Some(Stamp { text }))
    }

    /// The whole text.
    pub fn text(&self) -> &str
        ensures text { result.now ≡ self.now }
        ensures grammar { IsStamp self.now }
    {
        self.text.as_str()
    }
}

impl PartialEq for Stamp {
    ghost eq = { pointwise nat_eq };

    ghost laws = { Cmp.partial_equiv_from_equiv nat_list_eq_equiv };

    fn eq(&self, other: &Stamp) -> bool {
        self.text == other.text
    }
}

impl Eq for Stamp {
    ghost laws = { nat_list_eq_equiv };
}

impl PartialOrd for Stamp {
    ghost partial_cmp = { as_partial_cmp (slice_cmp nat_cmp) };

    ghost laws = { texts_po };

    fn partial_cmp(&self, other: &Stamp) -> Option<Ordering> {
        Some(self.cmp(other))
    }
}

impl Ord for Stamp {
    ghost cmp = { slice_cmp nat_cmp };

    ghost total = { nat_list_cmp_total };

    ghost matches_partial_cmp = { λ x y. refl };

    ghost matches_eq = { texts_ties };

    fn cmp(&self, other: &Stamp) -> Ordering {
        self.text.cmp(&other.text)
    }
}
