// Names as lists of UTF-16 units.
ghost use Rattle.std.specs.Prelude.{◌≡◌, IfOk};
ghost use Rattle.cacao_text.specs.Canon.{units};

use std::alloc::{AllocError, Global};

/// The UTF-16 units of a text.
pub fn units_of(alloc: Global, text: &str) -> Result<Vec<u16>, AllocError>
    ensures { IfOk result (λ list. list.items ≡ units text.now) }
{
    let mut list = Vec::with_capacity(alloc, text.len())?;
    for c in text.chars() {
        let mut pair = [0u16; 2];
        list.extend_from_slice(c.encode_utf16(&mut pair))?;
    }
    Ok(list)
}
