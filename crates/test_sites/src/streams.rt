// Streams that are too long for a row.
use std::alloc::{AllocError, Global};

/// So many bytes, which begin as a command and go on as its text.
pub(crate) fn long_command(alloc: Global, size: u64) -> Result<Vec<u8>, AllocError> {
    let mut line = Vec::from_slice(alloc, b"c 1 7 0 ")?;
    let rest = size.min(2_000_000).saturating_sub(8);
    for _byte in 0..rest {
        line.push(b'x')?;
    }
    Ok(line)
}

/// So many lines that stand for nothing.
pub(crate) fn nothings(alloc: Global, count: u64) -> Result<Vec<u8>, AllocError> {
    let mut lines = Vec::new(alloc);
    for _line in 0..count.min(2_000_000) {
        lines.extend_from_slice(b"n\n")?;
    }
    Ok(lines)
}
