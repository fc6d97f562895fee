// Numbers without a sign.
ghost use Rattle.std.specs.Prelude.{◌≡◌, ◌≤◌, ◌↔◌, IsTrue, IfSome};
ghost use Rattle.base_decimals.specs.Numbers.{number};
ghost use Rattle.base_decimals.specs.Begins.{MayBegin};

use std::str;

/// The greatest whole number that all who read JSON keep exact (RFC 7493, section 2.2).
pub const MOST_EXACT: u64 = 9_007_199_254_740_991;

fn may_begin(text: &[u8]) -> bool
    ensures { IsTrue result ↔ MayBegin text.now }
{
    !text.is_empty() && text[0] != b'+' && (text[0] != b'0' || text.len() == 1)
}

/// The number of at most `most` that a text is in decimal, with neither a sign nor a leading zero; None where it
/// is none. It takes no memory.
pub fn read_number(text: &[u8], most: u64) -> Option<u64>
    ensures value { result ≡ number most text.now }
    ensures fits { IfSome result (λ n. n ≤ most) }
{
    if !may_begin(text) {
        return None;
    }
    match str::from_utf8(text) {
        Ok(text) => read_text(text, most),
        Err(_) => None,
    }
}

// The same of a text that may begin so.
fn read_text(text: &str, most: u64) -> Option<u64>
    requires { MayBegin text.now }
    ensures value { result ≡ number most text.now }
    ensures fits { IfSome result (λ n. n ≤ most) }
{
    match text.parse::<u64>() {
        Ok(value) => (value <= most).then_some(value),
        Err(_) => None,
    }
}
