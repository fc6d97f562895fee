// Numbers that may have a minus sign.
ghost use Rattle.std.specs.Prelude.{◌≡◌, ◌≤◌, ◌<◌, ◌^◌};
ghost use Rattle.base_decimals.specs.Numbers.{begins_with_minus, integer, minus};

use crate::naturals::read_number;

fn begins_with_minus(text: &[u8]) -> bool
    ensures { result ≡ begins_with_minus text.now }
{
    match text {
        [first, ..] => *first == b'-',
        [] => false,
    }
}

// The negative number of this magnitude; none for 0, which has no minus sign.
fn minus(magnitude: u64) -> Option<i64>
    requires { magnitude ≤ 2 ^ 63 }
    ensures { result ≡ minus magnitude }
{
    if magnitude == 0 {
        return None;
    }
    Some(-((magnitude - 1) as i64) - 1)
}

/// The integer from `-below` to `above` that a text is in decimal; None where it is none: with a plus sign, with a
/// leading zero, `-0`, or past these bounds. It takes no memory.
pub fn read_integer(text: &[u8], below: u64, above: u64) -> Option<i64>
    requires below_fits { below ≤ 2 ^ 63 }
    requires above_fits { above < 2 ^ 63 }
    ensures { result ≡ integer below above text.now }
{
    if begins_with_minus(text) {
        let magnitude = read_number(&text[1..], below)?;
        minus(magnitude)
    } else {
        let value = read_number(text, above)?;
        Some(value as i64)
    }
}
