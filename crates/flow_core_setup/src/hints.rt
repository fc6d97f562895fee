// Where steps may stand, by their keys.
use cacao_book::Step;
use cacao_check::Checked;
use std::alloc::{AllocError, Global};

/// Of the steps of a playbook: where one may stand that has a key, by the ends of the key. It tells nothing for sure: what it
/// gives is a place to try first.
#[derive(Drop)]
pub(crate) struct Hints {
    places: Vec<u16>,
}

/// How many entries there are for each step, and at least.
const ENTRIES: usize = 4;

const LEAST_ENTRIES: usize = 256;

// Which one of so many entries a key has, by its first eight bytes and its last.
fn entry_of(key: &str, entries: usize) -> usize {
    let bytes = key.as_bytes();
    let Some(first) = bytes.first_chunk::<8>() else {
        return 0;
    };
    let Some(last) = bytes.last_chunk::<8>() else {
        return 0;
    };
    let first = u64::from_le_bytes(*first).wrapping_mul(31);
    let both = first.wrapping_add(u64::from_le_bytes(*last));
    let mixed = both.wrapping_mul(0x9E37_79B9_7F4A_7C15);
    let high = (mixed / 0x1_0000_0000_0000) as usize;
    high.wrapping_mul(entries) / 0x1_0000
}

// Those of these steps.
fn hints_of(alloc: Global, steps: &[Step]) -> Result<Hints, AllocError> {
    let entries = steps.len().wrapping_mul(ENTRIES).max(LEAST_ENTRIES);
    let mut places = vec![in alloc; 0; entries]?;
    for place in 0..steps.len() {
        let entry = entry_of(steps[place].key.text(), entries);
        if entry < places.len() {
            places[entry] = (place % 0x1_0000) as u16;
        }
    }
    Ok(Hints { places })
}

/// Those of all playbooks.
pub(crate) fn read_hints(alloc: Global, checked: &Checked) -> Result<Vec<Hints>, AllocError> {
    let books = checked.books();
    let mut hints = Vec::with_capacity(alloc, books.len())?;
    for book in books {
        hints.push(hints_of(alloc, book.steps.as_slice())?)?;
    }
    Ok(hints)
}

impl Hints {
    /// Where the step with this key may stand. It takes no memory.
    pub(crate) fn place_of(&self, key: &str) -> usize {
        match self.places.get(entry_of(key, self.places.len())) {
            Some(place) => *place as usize,
            None => 0,
        }
    }
}
