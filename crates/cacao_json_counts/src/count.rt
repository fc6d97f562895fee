// The counts that tell a repeated name. A count starts at what the text holds at most and goes down, one for each
// thing that is met, so that no sum of the counts of parts has to be bounded.
ghost use Rattle.std.specs.Prelude.{◌≡◌, ◌+◌, ◌-◌, ◌<◌, ◌≤◌, length, drop, get_or};
ghost use Rattle.cacao_json_counts.specs.Counts.{Outside, Inside, colon_at, colons_from, colons, members, members_of_items, members_of_pairs};
ghost use Rattle.serde_json.specs.View.{view, items_view, members_view};

use memchr::memchr2;
use serde_json::{Map, Value};

/// The colons outside strings of a text, bytes of any kind. It takes no memory.
pub fn count_colons(bytes: &[u8]) -> usize
    ensures value { result ≡ colons bytes.now }
    ensures bound { result ≤ length bytes.now }
{
    let mut count = 0usize;
    let mut place = 0usize;
    while place < bytes.len() {
        if bytes[place] == b':' {
            count += 1;
        }
        place = next_outside(bytes, place);
    }
    count
}

/// The next place outside strings, or the end.
fn next_outside(bytes: &[u8], place: usize) -> usize
    requires { place < length bytes.now }
    ensures value { colons_from Outside (drop place bytes.now)
        ≡ colon_at Outside (get_or bytes.now place 0) + colons_from Outside (drop result bytes.now) }
    ensures later { place < result }
    ensures bound { result ≤ length bytes.now }
{
    if bytes[place] == b'"' {
        string_end(bytes, place + 1)
    } else {
        place + 1
    }
}

/// The place behind the string that has begun, or the end. A string's bytes are passed over many at a time.
fn string_end(bytes: &[u8], begun: usize) -> usize
    requires { begun ≤ length bytes.now }
    ensures value { colons_from Inside (drop begun bytes.now) ≡ colons_from Outside (drop result bytes.now) }
    ensures later { begun ≤ result }
    ensures bound { result ≤ length bytes.now }
{
    let mut place = begun;
    while let Some(plain) = memchr2(b'"', b'\\', &bytes[place..]) {
        let stop = place + plain;
        if bytes[stop] == b'"' {
            return stop + 1;
        }
        // A backslash takes the next byte along.
        if bytes.len() - stop == 1 {
            return bytes.len();
        }
        place = stop + 2;
    }
    bytes.len()
}

/// What is left of the count, 0 at least, when one is taken for each member at all levels of the value.
#[cycle(left)]
pub fn left_after_members(value: &Value, count: usize) -> usize
    ensures { result ≡ count - members (view value.now) }
{
    match value {
        Value::Array(items) => left_after_items(items, count),
        Value::Object(pairs) => left_after_pairs(pairs, count),
        _ => count,
    }
}

#[cycle(left)]
fn left_after_items(items: &Vec<Value>, count: usize) -> usize
    ensures { result ≡ count - members_of_items (items_view items.now.items) }
{
    let mut left = count;
    for value in items {
        left = left_after_members(value, left);
    }
    left
}

#[cycle(left)]
fn left_after_pairs(pairs: &Map<String, Value>, count: usize) -> usize
    ensures { result ≡ count - members_of_pairs (members_view pairs.now.entries) }
{
    let mut left = count;
    for (_, value) in pairs.iter() {
        left = left_after_members(value, left.saturating_sub(1));
    }
    left
}
