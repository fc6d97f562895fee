// The gates of a journal's image, by which its growth is seen.

/// The bytes of a journal before its first gate.
pub(crate) const HEADER: usize = 8;

/// The place of the first closed gate from the gate at this place on; none where the image ends before it, or is damaged.
///
/// Only the byte at that place and those behind it ever change: an append writes behind it, and then opens it.
pub(crate) fn closed_gate(image: &[u8], gate: usize) -> Option<usize> {
    let mut rest = image.get(gate..)?;
    for _ in 0..image.len() {
        match rest {
            [1, a, b, c, d, after @ ..] => {
                let size = u32::from_be_bytes([*a, *b, *c, *d]) as usize;
                rest = after.get(size..)?;
            }
            [] | [1, ..] => return None,
            [_, ..] => return Some(image.len().saturating_sub(rest.len())),
        }
    }
    None
}
