// Images that a crash may leave, by the entries of a record of device calls.
ghost use Rattle.std.specs.Prelude.{◌≡◌, ◌⊎◌, ◌+◌, ◌-◌, ◌<◌, ◌≤◌, ℕ, All, IfOk, IsTrue, false, length, drop, slice_index};
ghost use Rattle.cacao_site_log.specs.Entries.{FitsIn, IsNoSync, IsAsSynced, IsRestAt, call_of, calls_of};
ghost use Rattle.cacao_site_log.specs.Replay.{FileState, at_rest, after, after_all, is_image};

use crate::entry::Entry;
use crate::replay::contents;
use std::alloc::{AllocError, Global};

/// One image of a file that a crash after these calls may leave, picked by `choice`.
///
/// 0 gives what the file reads as, 1 what the last sync that was done left, or the contents at the start. Every
/// other number gives some image: each write since that sync is torn in one of three ways at one of its bytes.
pub fn crash_image(
    alloc: Global,
    bytes: &[u8],
    entries: &[Entry],
    file: u8,
    start: &[u8],
    choice: u64,
) -> Result<Vec<u8>, AllocError>
    requires { All (FitsIn (length bytes.now)) entries.now }
    ensures left { IfOk result (λ v. IsTrue (is_image (after_all file (at_rest start.now) (calls_of bytes.now entries.now)) v.items)) }
    ensures reads { IfOk result (λ v. choice ≡ 0
        → v.items ≡ (after_all file (at_rest start.now) (calls_of bytes.now entries.now)).reads) }
    ensures synced { IfOk result (λ v. choice ≡ 1
        → v.items ≡ (after_all file (at_rest start.now) (calls_of bytes.now entries.now)).synced) }
{
    if choice == 0 {
        return contents(alloc, bytes, entries, file, start);
    }
    let n = last_sync(entries, file);
    if choice == 1 {
        return contents(alloc, bytes, &entries[..n], file, start);
    }
    torn_since(alloc, bytes, entries, n, file, start, choice)
}

/// How many entries there are up to the last sync of the file.
fn last_sync(entries: &[Entry], file: u8) -> usize
    ensures bound { result ≤ length entries.now }
    ensures front { IsRestAt file entries.now result }
    ensures back { All (IsNoSync file) (drop result entries.now) }
{
    let mut found = 0usize;
    for i in 0..entries.len() {
        if is_sync(entries[i], file) {
            found = i + 1;
        }
    }
    found
}

fn is_sync(entry: Entry, file: u8) -> bool
    ensures yes { IsTrue result → entry ≡ Entry.Synced file }
    ensures no { result ≡ false → IsNoSync file entry }
{
    match entry {
        Entry::Synced { file: other } => other == file,
        _ => false,
    }
}

/// One image after these calls, of which the first n end with the last sync of the file.
fn torn_since(
    alloc: Global,
    bytes: &[u8],
    entries: &[Entry],
    n: usize,
    file: u8,
    start: &[u8],
    choice: u64,
) -> Result<Vec<u8>, AllocError>
    requires bound { n ≤ length entries.now }
    requires fits { All (FitsIn (length bytes.now)) entries.now }
    requires front { IsRestAt file entries.now n }
    requires back { All (IsNoSync file) (drop n entries.now) }
    ensures { IfOk result (λ v. IsTrue (is_image (after_all file (at_rest start.now) (calls_of bytes.now entries.now)) v.items)) }
{
    let (front, back) = entries.split_at(n);
    let synced = contents(alloc, bytes, front, file, start)?;
    torn(bytes, back, file, synced, choice)
}

/// One image after these calls, of a file that was synced with these contents before them.
fn torn(
    bytes: &[u8],
    entries: &[Entry],
    file: u8,
    synced: Vec<u8>,
    choice: u64,
) -> Result<Vec<u8>, AllocError>
    requires fits { All (FitsIn (length bytes.now)) entries.now }
    requires no_sync { All (IsNoSync file) entries.now }
    ensures { IfOk result (λ v. IsTrue (is_image (after_all file (at_rest synced.items) (calls_of bytes.now entries.now)) v.items)) }
{
    let longest = longest_after(bytes, entries, file, synced.as_slice());
    let mut image = synced;
    image.resize(picked_length(image.len(), longest as usize, choice), 0)?;
    tear_all(bytes, entries, file, choice, image.as_mut_slice());
    Ok(image)
}

/// The greatest length of the file in bytes since it was synced with these contents.
fn longest_after(bytes: &[u8], entries: &[Entry], file: u8, synced: &[u8]) -> u64
    requires fits { All (FitsIn (length bytes.now)) entries.now }
    requires no_sync { All (IsNoSync file) entries.now }
    ensures { result ≡ (after_all file (at_rest synced.now) (calls_of bytes.now entries.now)).longest }
{
    let mut longest = synced.len() as u64;
    for entry in entries {
        longest = longer(bytes, *entry, file, longest);
    }
    longest
}

/// The greatest length after one call more, where it was `longest` before.
fn longer(bytes: &[u8], entry: Entry, file: u8, longest: u64) -> u64
    requires fits { FitsIn (length bytes.now) entry }
    requires no_sync { IsNoSync file entry }
    ensures { (state : FileState) → state.longest ≡ longest
        → (after file state (call_of bytes.now entry)).longest ≡ result }
{
    match entry {
        Entry::Wrote {
            file: other,
            at,
            start,
            end,
        } if other == file => longest.max(at + (end - start) as u64),
        Entry::Tried {
            file: other,
            at,
            size,
        } if other == file => longest.max(at + size as u64),
        _ => longest,
    }
}

/// A length between the two.
fn picked_length(shortest: usize, longest: usize, choice: u64) -> usize
    requires { shortest ≤ longest }
    ensures low { shortest ≤ result }
    ensures high { result ≤ longest }
{
    match Landing::of(choice) {
        Landing::Front { cut } => longest.min(shortest.saturating_add(cut)),
        Landing::Back { .. } | Landing::Noise { .. } => longest,
    }
}

/// Which bytes of a write land.
#[derive(Clone, Copy, Drop)]
enum Landing {
    /// Those before the cut; the others stay.
    Front { cut: usize },
    /// Those from the cut on; the others stay.
    Back { cut: usize },
    /// Those before the cut; from there on there are others.
    Noise { cut: usize },
}

impl Landing {
    fn of(choice: u64) -> Landing {
        let cut = (choice.saturating_sub(2) / 3) as usize;
        match choice % 3 {
            2 => Landing::Front { cut },
            0 => Landing::Back { cut },
            _ => Landing::Noise { cut },
        }
    }
}

/// Brings the image up to these calls, where each write is torn.
fn tear_all(bytes: &[u8], entries: &[Entry], file: u8, choice: u64, image: &mut [u8])
    requires fits { All (FitsIn (length bytes.now)) entries.now }
    requires no_sync { All (IsNoSync file) entries.now }
    ensures { (state : FileState) → IsAsSynced state image.old
        → IsAsSynced (after_all file state (calls_of bytes.now entries.now)) image.new }
{
    for entry in entries {
        tear(bytes, *entry, file, choice, image);
    }
}

/// Brings the image up to one call more, where a write is torn.
fn tear(bytes: &[u8], entry: Entry, file: u8, choice: u64, image: &mut [u8])
    requires fits { FitsIn (length bytes.now) entry }
    requires no_sync { IsNoSync file entry }
    ensures { (state : FileState) → IsAsSynced state image.old
        → IsAsSynced (after file state (call_of bytes.now entry)) image.new }
{
    match entry {
        Entry::Wrote {
            file: other,
            at,
            start,
            end,
        } if other == file => land(&bytes[start..end], at as usize, end - start, choice, image),
        Entry::Tried {
            file: other,
            at,
            size,
        } if other == file => land(&[], at as usize, size, choice, image),
        _ => {}
    }
}

/// Lets some of the bytes land in this range of the image, and others where there are none.
fn land(bytes: &[u8], at: usize, size: usize, choice: u64, image: &mut [u8])
    requires { at + size ≤ 67_108_864 }
    ensures { (k : ℕ) → (k < at) ⊎ (at + size ≤ k)
        → slice_index image.new k ≡ slice_index image.old k }
{
    let end = (at + size).min(image.len()).max(at);
    for p in at..end {
        image[p] = landed(bytes, p - at, choice, image[p]);
    }
}

/// The byte after a torn write, at this offset of the write, where there was `old` before.
fn landed(bytes: &[u8], offset: usize, choice: u64, old: u8) -> u8 {
    let noise = old ^ 0xa5;
    let new = bytes.get(offset).copied().unwrap_or(noise);
    match Landing::of(choice) {
        Landing::Front { cut } if offset >= cut => old,
        Landing::Back { cut } if offset < cut => old,
        Landing::Noise { cut } if offset >= cut => noise,
        _ => new,
    }
}
