// The escapes of a field.
use std::alloc::{AllocError, Global};

/// Where a reading of a field stands.
#[derive(Clone, Copy)]
enum Place {
    /// Outside an escape.
    Outside,
    /// Behind a backslash.
    Behind,
    /// Behind `\x`.
    High,
    /// Behind `\x` and a digit of this value.
    Low(u8),
}

/// The value of a hexadecimal digit; 0 where it is none.
fn digit(byte: u8) -> u8 {
    match byte {
        b'0'..=b'9' => byte - b'0',
        b'a'..=b'f' => byte - b'a' + 10,
        b'A'..=b'F' => byte - b'A' + 10,
        _ => 0,
    }
}

/// Takes the byte behind a backslash. One that no escape begins with stands for itself, with its backslash.
fn take_letter(bytes: &mut Vec<u8>, byte: u8) -> Result<Place, AllocError> {
    match byte {
        b'x' => return Ok(Place::High),
        b'n' => bytes.push(b'\n')?,
        b't' => bytes.push(b'\t')?,
        b'r' => bytes.push(b'\r')?,
        b'\\' => bytes.push(b'\\')?,
        _ => {
            bytes.push(b'\\')?;
            bytes.push(byte)?;
        }
    }
    Ok(Place::Outside)
}

/// Takes a byte of a field.
fn take(bytes: &mut Vec<u8>, place: Place, byte: u8) -> Result<Place, AllocError> {
    match place {
        Place::Outside => {
            if byte == b'\\' {
                return Ok(Place::Behind);
            }
            bytes.push(byte)?;
            Ok(Place::Outside)
        }
        Place::Behind => take_letter(bytes, byte),
        Place::High => Ok(Place::Low(digit(byte))),
        Place::Low(high) => {
            bytes.push(high.wrapping_mul(16).wrapping_add(digit(byte)))?;
            Ok(Place::Outside)
        }
    }
}

/// The bytes that a field stands for.
pub(crate) fn unescaped(alloc: Global, field: &str) -> Result<Vec<u8>, AllocError> {
    let mut bytes = Vec::new(alloc);
    let mut place = Place::Outside;
    for byte in field.bytes() {
        place = take(&mut bytes, place, byte)?;
    }
    Ok(bytes)
}

/// Writes a byte of a field.
fn put(field: &mut String, byte: u8) -> Result<(), AllocError> {
    match byte {
        b'\n' => field.push_str("\\n"),
        b'\t' => field.push_str("\\t"),
        b'\r' => field.push_str("\\r"),
        b'\\' => field.push_str("\\\\"),
        b' '..=b'~' => field.push(char::from(byte)),
        _ => write!(field, "\\x{byte:02x}"),
    }
}

/// The field that stands for these bytes, in ASCII.
pub fn escaped(alloc: Global, bytes: &[u8]) -> Result<String, AllocError> {
    let mut field = String::new(alloc);
    for byte in bytes {
        put(&mut field, *byte)?;
    }
    Ok(field)
}
