// The parts of a line. Where memory is wanting a part may stand half written.
ghost use Rattle.std.specs.Prelude.{◌≡◌, ◌∷◌, ◌++◌, OnOk, decimal};

use itoa::Buffer;
use std::alloc::AllocError;

/// Adds a text.
pub fn add(out: &mut Vec<u8>, text: &[u8]) -> Result<(), AllocError>
    ensures { OnOk result (out.new.items ≡ out.old.items ++ text.now) }
{
    out.extend_from_slice(text)?;
    Ok(())
}

/// Adds a number in decimal.
pub fn add_decimal(out: &mut Vec<u8>, number: u64) -> Result<(), AllocError>
    ensures { OnOk result (out.new.items ≡ out.old.items ++ decimal number) }
{
    let mut buffer = Buffer::new();
    add(out, buffer.format(number).as_bytes())
}

/// Adds a word behind a space.
pub fn add_word(out: &mut Vec<u8>, word: &[u8]) -> Result<(), AllocError>
    ensures { OnOk result (out.new.items ≡ out.old.items ++ 32 ∷ word.now) }
{
    add(out, b" ")?;
    add(out, word)
}

/// Adds a number in decimal behind a space.
pub fn add_number(out: &mut Vec<u8>, number: u64) -> Result<(), AllocError>
    ensures { OnOk result (out.new.items ≡ out.old.items ++ 32 ∷ decimal number) }
{
    add(out, b" ")?;
    add_decimal(out, number)
}
