// Whether each number is whole.
ghost use Rattle.std.specs.Prelude.{◌≡◌, ◌==◌, ◌<◌, length, slice_index, IfSome, IfNone, IsTrue, true, false};
ghost use Rattle.serde_json.specs.View.{view, number_view, items_view, members_view};
ghost use Rattle.serde_json.specs.Find.{of_integer};
ghost use Rattle.cacao_json_counts.specs.Counts.{is_whole, numbers, numbers_of_items, numbers_of_pairs, TakesWhole};
ghost use Rattle.cacao_json.specs.Straight.{WritesWhole, PartsWriteWhole};

use fast_float::Numeral;
use serde_json::{Map, Number, Value};

/// The largest whole number of the profile (RFC 7493, section 2.2): 2 to the power of 53, less 1.
const LARGEST: i64 = 9_007_199_254_740_991;

/// The number as an integer, if it is whole.
pub fn whole_number(number: &Number) -> Option<i64>
    ensures some { IfSome result (λ z. is_whole (number_view number.now) ≡ true) }
    ensures value { IfSome result (λ z. number_view number.now ≡ of_integer z) }
    ensures none { IfNone result (is_whole (number_view number.now) ≡ false) }
{
    let n = number.as_i64()?;
    if -LARGEST <= n && n <= LARGEST {
        Some(n)
    } else {
        None
    }
}

/// The integer that a number's text writes, if it is whole.
pub fn whole_text(text: &str) -> Option<i64>
    ensures { IfSome result (WritesWhole text.now) }
{
    let bytes = text.as_bytes();
    if has_minus(bytes) {
        whole_below(&Numeral::scan(&bytes[1..]))
    } else {
        whole_above(&Numeral::scan(bytes))
    }
}

fn has_minus(bytes: &[u8]) -> bool
    ensures value { result ≡ (slice_index bytes.now 0 == 45) }
    ensures len { IsTrue result → 0 < length bytes.now }
{
    !bytes.is_empty() && bytes[0] == b'-'
}

/// The whole number behind a minus. `-0` is none.
fn whole_below(numeral: &Numeral<'_>) -> Option<i64>
    ensures { IfSome result (PartsWriteWhole true numeral.now) }
{
    let n = numeral.to_i64(true)?;
    if -LARGEST <= n && n < 0 {
        Some(n)
    } else {
        None
    }
}

fn whole_above(numeral: &Numeral<'_>) -> Option<i64>
    ensures { IfSome result (PartsWriteWhole false numeral.now) }
{
    let n = numeral.to_u64()?;
    if n <= LARGEST as u64 {
        Some(n as i64)
    } else {
        None
    }
}

/// What is left of the count when one is taken for each number; in `Err`, for each number before the
/// first that is not whole.
#[cycle(whole)]
pub fn left_after_numbers(value: &Value, count: usize) -> Result<usize, usize>
    ensures { TakesWhole result count (numbers (view value.now)) }
{
    match value {
        Value::Number(number) => match whole_number(number) {
            Some(_) => Ok(count.saturating_sub(1)),
            None => Err(count),
        },
        Value::Array(items) => left_after_items(items, count),
        Value::Object(pairs) => left_after_pairs(pairs, count),
        _ => Ok(count),
    }
}

#[cycle(whole)]
fn left_after_items(items: &Vec<Value>, count: usize) -> Result<usize, usize>
    ensures { TakesWhole result count (numbers_of_items (items_view items.now.items)) }
{
    let mut left = count;
    for value in items {
        match left_after_numbers(value, left) {
            Ok(more) => left = more,
            Err(before) => return Err(before),
        }
    }
    Ok(left)
}

#[cycle(whole)]
fn left_after_pairs(pairs: &Map<String, Value>, count: usize) -> Result<usize, usize>
    ensures { TakesWhole result count (numbers_of_pairs (members_view pairs.now.entries)) }
{
    let mut left = count;
    for (_, value) in pairs.iter() {
        match left_after_numbers(value, left) {
            Ok(more) => left = more,
            Err(before) => return Err(before),
        }
    }
    Ok(left)
}
