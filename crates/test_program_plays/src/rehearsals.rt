// Rehearsals, called as a library: the text of their playbook, and what is counted.
use cacao_cli_rehearsal::{Summary, new_site, rehearsal_text, rehearse};
use std::alloc::{AllocError, Global};

/// What a rehearsal counts.
#[derive(Clone, Copy)]
pub struct Rehearsed {
    pub records: u32,
    pub acts: u64,
    pub rules: u32,
}

/// The text of the playbook with so many positions.
pub fn text_rehearsed(alloc: Global, positions: u32) -> Result<Vec<u8>, AllocError> {
    let text = rehearsal_text(alloc, positions)?;
    text.as_slice().to_vec(alloc)
}

/// What the rehearsal of so many positions counts, on a new site; nothing where it ends otherwise.
pub fn count_rehearsed(alloc: Global, positions: u32) -> Result<Option<Rehearsed>, AllocError> {
    let mut site = new_site(alloc)?;
    match rehearse(alloc, &mut site, positions) {
        Ok(
            Summary {
                records,
                acts,
                rules,
            },
        ) => Ok(Some(Rehearsed {
            records,
            acts,
            rules,
        })),
        Err(_) => Ok(None),
    }
}
