// Sets of places from texts, and their texts.
ghost use Rattle.std.specs.Prelude.{◌≡◌, length};

use base_graphs::Bits;
use std::alloc::{AllocError, Global};

/// Puts a place below the count into a set over so many.
fn mark(bits: &mut Bits, count: usize, place: u32)
    requires { length bits.old ≡ count }
    ensures { length bits.new ≡ count }
{
    if (place as usize) < count {
        bits.mark(place);
    }
}

/// The set of these places, over so many.
pub(crate) fn marked(alloc: Global, count: usize, places: &[u32]) -> Result<Bits, AllocError> {
    let mut bits = Bits::unmarked(alloc, count)?;
    for place in places {
        mark(&mut bits, count, *place);
    }
    Ok(bits)
}

/// Those of these places that stand in a set.
pub(crate) fn marked_of(alloc: Global, bits: &Bits, places: &[u32]) -> Result<String, AllocError> {
    let mut text = String::new(alloc);
    for place in places {
        if bits.has(*place) {
            write!(text, " {place}")?;
        }
    }
    Ok(text)
}

/// Those of so many places that stand in a set.
pub(crate) fn marked_below(alloc: Global, bits: &Bits, count: u32) -> Result<String, AllocError> {
    let mut text = String::new(alloc);
    for place in 0..count {
        if bits.has(place) {
            write!(text, " {place}")?;
        }
    }
    Ok(text)
}
