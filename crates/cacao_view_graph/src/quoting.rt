// Texts, added to what is written, as they are or quoted.
ghost use Rattle.std.specs.Prelude.{◌≡◌, ◌<◌, ◌∷◌, ◌++◌, [], OnOk, flat_map, if◌then◌else◌};
ghost use Rattle.cacao_view_graph.specs.Quoting.{ends_barred, is_control, quoted, quoted_byte, replaced, shown_byte, symbol};

use base_lines::add;
use std::alloc::AllocError;

/// Whether a byte is a control character but the line feed.
fn is_control(byte: u8) -> bool
    ensures { result ≡ is_control byte }
{
    (byte < 32 && byte != b'\n') || byte == 127
}

/// The last byte of the symbol of a control character.
fn symbol_end(byte: u8) -> u8
    requires { byte < 128 }
    ensures { 226 ∷ 144 ∷ result ∷ [] ≡ symbol byte }
{
    if byte == 127 { 161 } else { 128 + byte }
}

/// Adds the symbol of a control character.
fn add_symbol(out: &mut Vec<u8>, byte: u8) -> Result<(), AllocError>
    requires { byte < 128 }
    ensures { OnOk result (out.new.items ≡ out.old.items ++ symbol byte) }
{
    let end = symbol_end(byte);
    out.push(226)?;
    out.push(144)?;
    out.push(end)?;
    Ok(())
}

/// Adds what is shown of a byte.
fn add_shown(out: &mut Vec<u8>, byte: u8) -> Result<(), AllocError>
    ensures { OnOk result (out.new.items ≡ out.old.items ++ shown_byte byte) }
{
    if is_control(byte) {
        return add_symbol(out, byte);
    }
    out.push(byte)?;
    Ok(())
}

/// Adds what stands in a quoted label for a byte.
fn add_byte(out: &mut Vec<u8>, byte: u8) -> Result<(), AllocError>
    ensures { OnOk result (out.new.items ≡ out.old.items ++ quoted_byte byte) }
{
    if byte == b'\n' {
        return add(out, b"\\n");
    }
    if byte == b'"' {
        return add(out, b"\\\"");
    }
    if byte == b'&' {
        return add(out, b"&amp;");
    }
    if byte == b'\\' {
        return add(out, b"\\\\");
    }
    add_shown(out, byte)
}

/// A byte of a text behind two others; of U+FFFE and U+FFFF, which XML has not, the last byte of U+FFFD (XML 1.0, section 2.2).
fn replaced(first: u8, second: u8, byte: u8) -> u8
    ensures { result ≡ (if ends_barred first second byte then 189 else byte) }
{
    if first == 239 && second == 191 && (byte == 190 || byte == 191) {
        189
    } else {
        byte
    }
}

/// Adds what stands in a quoted label for each byte of a text.
fn add_bytes(out: &mut Vec<u8>, text: &[u8]) -> Result<(), AllocError>
    ensures { OnOk result (out.new.items ≡ out.old.items ++ flat_map quoted_byte (replaced 0 0 text.now)) }
{
    let mut first = 0;
    let mut second = 0;
    for byte in text {
        let shown = replaced(first, second, *byte);
        add_byte(out, shown)?;
        first = second;
        second = *byte;
    }
    Ok(())
}

/// Adds a text, quoted.
pub(crate) fn add_quoted(out: &mut Vec<u8>, text: &[u8]) -> Result<(), AllocError>
    ensures { OnOk result (out.new.items ≡ out.old.items ++ quoted text.now) }
{
    add(out, b"\"")?;
    add_bytes(out, text)?;
    add(out, b"\"")
}
