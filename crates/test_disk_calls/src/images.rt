// Images of journals, read as a whole.
use run_journal::{Entry, ImageError, read_image};
use std::alloc::{AllocError, Global};
use test_site_calls::answers::whole;

/// A text of an error.
pub(crate) fn refused(alloc: Global, error: ImageError) -> Result<Vec<u8>, AllocError> {
    Ok(format!(in alloc; "{error}")?.into_bytes())
}

/// How many entries an image has.
pub(crate) fn image_count(alloc: Global, image: &[u8]) -> Result<Vec<u8>, AllocError> {
    match read_image(alloc, image) {
        Ok(entries) => whole(alloc, entries.len() as u64),
        Err(error) => refused(alloc, error),
    }
}

/// Adds the place of the gate of an entry, and its bytes.
fn put_entry(alloc: Global, answer: &mut Vec<u8>, entry: &Entry) -> Result<(), AllocError> {
    let place = entry.place;
    let head = format!(in alloc; "[{place} ")?;
    answer.extend_from_slice(head.as_bytes())?;
    answer.extend_from_slice(entry.bytes.as_slice())?;
    answer.extend_from_slice(b"]")
}

/// The same of each of these entries.
fn listed(alloc: Global, entries: &[Entry]) -> Result<Vec<u8>, AllocError> {
    let mut answer = Vec::new(alloc);
    for entry in entries {
        put_entry(alloc, &mut answer, entry)?;
    }
    Ok(answer)
}

/// The place of the gate of each entry of an image, and its bytes.
pub(crate) fn image_entries(alloc: Global, image: &[u8]) -> Result<Vec<u8>, AllocError> {
    match read_image(alloc, image) {
        Ok(entries) => listed(alloc, entries.as_slice()),
        Err(error) => refused(alloc, error),
    }
}
