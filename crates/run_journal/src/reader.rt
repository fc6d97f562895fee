// The entries of an image.
ghost use Rattle.std.specs.Prelude.{◌≡◌, ◌≢◌, ◌≤◌, ◌<◌, ◌*◌, ◌+◌, ◌-◌, ◌∷◌, ◌++◌, List, ℕ, length, take, slice_index, IfOk, IfSome, IfNone, IsErrOf, true, false};
ghost use Rattle.run_journal.specs.Image.{ArePlaced, bytes_of};
ghost use Rattle.run_journal.specs.Layout.{Entries, HasLayout, IsBroken, IsDamagedAt, front, header, length_field, most_entry};

use crate::entries::Entry;
use crate::error::ImageError;
use crate::layout::{BLANK, HEADER_SIZE, MOST_ENTRY};
use cacao_site::Bytes;
use std::alloc::{AllocError, Global};

/// The entries of an image, and the place of its closed gate.
#[derive(Drop)]
pub struct Found {
    pub entries: Vec<Entry>,
    pub gate: u64,
}

/// The entries of an image of more than 9 bytes, if it stands for a list.
pub fn read_list(alloc: Global, image: &[u8]) -> Result<Found, ImageError>
    requires low { 9 < length image.now }
    requires high { length image.now ≤ 67_108_864 }
    ensures layout { IfOk result (λ found. HasLayout (bytes_of found.entries.items) image.now) }
    ensures placed { IfOk result (λ found. ArePlaced found.entries.items) }
    ensures gate { IfOk result (λ found. (found.gate ≡ length (front (bytes_of found.entries.items)))
        × (found.gate < length image.now)) }
    ensures damaged { (place : ℕ) → IsErrOf result (ImageError.Damaged place) → IsDamagedAt image.now place }
{
    if let Some(place) = header_break(image) {
        return Err(ImageError::Damaged { place });
    }
    let split = read_entries(alloc, &image[HEADER_SIZE..])?;
    let gate = (image.len() - split.rest.len()) as u64;
    if split.broken {
        return Err(ImageError::Damaged { place: gate });
    }
    Ok(Found {
        entries: split.entries,
        gate,
    })
}

/// The first byte that differs from the header.
pub fn header_break(image: &[u8]) -> Option<u64>
    requires { 8 < length image.now }
    ensures differs { IfSome result (λ place. (place < 8) × (take place image.now ≡ take place header)
        × (slice_index image.now place ≢ slice_index header place)) }
    ensures same { IfNone result (take 8 image.now ≡ header) }
{
    for i in 0..HEADER_SIZE {
        if image[i] != BLANK[i] {
            return Some(i as u64);
        }
    }
    None
}

/// Whole entries, what stands behind them, and whether that is no closed gate.
#[derive(Drop)]
pub struct Split<'a> {
    pub entries: Vec<Entry>,
    pub rest: &'a [u8],
    pub broken: bool,
}

/// Reads whole entries behind the header, up to the first that is none.
pub fn read_entries<'a>(alloc: Global, bytes: &'a [u8]) -> Result<Split<'a>, AllocError>
    requires { length bytes.now ≤ 67_108_864 }
    ensures entries { IfOk result (λ split. Entries bytes.now (bytes_of split.entries.items) split.rest.now) }
    ensures placed { IfOk result (λ split. ArePlaced split.entries.items) }
    ensures broken { IfOk result (λ split. split.broken ≡ true → IsBroken split.rest.now) }
    ensures closed { IfOk result (λ split. split.broken ≡ false
        → (gate : ℕ) × (rest : List ℕ) × (split.rest.now ≡ gate ∷ rest) × (gate ≢ 1)) }
{
    let mut entries = Vec::new(alloc);
    let mut rest = bytes;
    while let Some((item, after)) = split_entry(rest) {
        entries.push(Entry {
            place: (HEADER_SIZE + bytes.len() - rest.len()) as u64,
            bytes: Bytes::from_slice(alloc, item)?,
        })?;
        rest = after;
    }
    let broken = match rest {
        [] | [1, ..] => true,
        [_, ..] => false,
    };
    Ok(Split {
        entries,
        rest,
        broken,
    })
}

/// The first entry and what stands behind it, if one stands whole at the front.
pub fn split_entry<'a>(bytes: &'a [u8]) -> Option<(&'a [u8], &'a [u8])>
    ensures entry { IfSome result (λ both. (length both.0.now ≤ most_entry)
        × (bytes.now ≡ 1 ∷ length_field (length both.0.now) ++ both.0.now ++ both.1.now)) }
    ensures none { IfNone result ((rest : List ℕ) → bytes.now ≡ 1 ∷ rest → IsBroken bytes.now) }
{
    match bytes {
        [1, a, b, c, d, after @ ..] => {
            let size = u32::from_be_bytes([*a, *b, *c, *d]) as usize;
            if size <= MOST_ENTRY && size <= after.len() {
                Some((&after[..size], &after[size..]))
            } else {
                None
            }
        }
        _ => None,
    }
}
