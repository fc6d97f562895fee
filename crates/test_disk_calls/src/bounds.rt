// Counts that a crash may leave.
use std::alloc::{AllocError, Global};
use test_site_calls::answers::text;

/// `within` where the counts that were found, the lowest and the highest, lie from the least to the most; else what they are.
pub(crate) fn bounded(
    alloc: Global,
    low: u32,
    high: u32,
    least: u64,
    most: u64,
) -> Result<Vec<u8>, AllocError> {
    if least <= low as u64 && high as u64 <= most {
        return text(alloc, "within");
    }
    Ok(format!(in alloc; "{low} to {high}")?.into_bytes())
}
