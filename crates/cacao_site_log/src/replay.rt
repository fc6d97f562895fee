// What a file reads as, by the entries of a record of device calls.
ghost use Rattle.std.specs.Prelude.{◌≡◌, ◌+◌, ◌^◌, ◌<◌, ◌≤◌, ℕ, All, IfOk, length, slice_index};
ghost use Rattle.cacao_site_log.specs.Entries.{FitsIn, call_of, calls_of, IsReadAt};
ghost use Rattle.cacao_site_log.specs.Replay.{FileState, byte_after, at_rest, after, after_all};

use crate::entry::Entry;
use std::alloc::{AllocError, Global};

/// The length of the file in bytes after these calls, from its contents at the start.
fn length_after(bytes: &[u8], entries: &[Entry], file: u8, start: &[u8]) -> u64
    requires { All (FitsIn (length bytes.now)) entries.now }
    ensures { result ≡ length (after_all file (at_rest start.now) (calls_of bytes.now entries.now)).reads }
{
    let mut size = start.len() as u64;
    for entry in entries {
        size = size_after(bytes, *entry, file, size);
    }
    size
}

/// The length of the file after one call, where it had this size before.
fn size_after(bytes: &[u8], entry: Entry, file: u8, size: u64) -> u64
    requires { FitsIn (length bytes.now) entry }
    ensures { (state : FileState) → length state.reads ≡ size
        → length (after file state (call_of bytes.now entry)).reads ≡ result }
{
    match entry {
        Entry::Wrote {
            file: other,
            at,
            start,
            end,
        } if other == file => size.max(at + (end - start) as u64),
        _ => size,
    }
}

/// Fills the buffer with what the file has from place `at` on after these calls, and with zeros past its end.
pub fn fill(bytes: &[u8], entries: &[Entry], file: u8, start: &[u8], at: u64, into: &mut [u8])
    requires fits { All (FitsIn (length bytes.now)) entries.now }
    requires end { at + length into.old < 2 ^ 64 }
    ensures { IsReadAt (after_all file (at_rest start.now) (calls_of bytes.now entries.now)).reads at into.new }
{
    copy_from(start, at, into);
    for entry in entries {
        overlay_entry(bytes, *entry, file, at, into);
    }
}

/// Fills the buffer with what the bytes have from place `at` on, and with zeros past their end.
fn copy_from(start: &[u8], at: u64, into: &mut [u8])
    requires { at + length into.old < 2 ^ 64 }
    ensures { IsReadAt start.now at into.new }
{
    for k in 0..into.len() {
        into[k] = match start.get(at as usize + k) {
            Some(byte) => *byte,
            None => 0,
        };
    }
}

/// Brings the buffer, which begins at place `at` of the file, up to one call more.
fn overlay_entry(bytes: &[u8], entry: Entry, file: u8, at: u64, into: &mut [u8])
    requires fits { FitsIn (length bytes.now) entry }
    requires end { at + length into.old < 2 ^ 64 }
    ensures { (state : FileState) → IsReadAt state.reads at into.old
        → IsReadAt (after file state (call_of bytes.now entry)).reads at into.new }
{
    match entry {
        Entry::Wrote {
            file: other,
            at: place,
            start,
            end,
        } if other == file => overlay(&bytes[start..end], place, at, into),
        _ => {}
    }
}

/// Puts the bytes, which lie at `place` of a file, into a buffer that begins at place `at` of it.
fn overlay(bytes: &[u8], place: u64, at: u64, into: &mut [u8])
    requires fits { place + length bytes.now ≤ 67_108_864 }
    requires end { at + length into.old < 2 ^ 64 }
    ensures { (k : ℕ) → k < length into.old
        → slice_index into.new k ≡ byte_after place bytes.now (at + k) (slice_index into.old k) }
{
    let first = place.max(at);
    let last = (place + bytes.len() as u64)
        .min(at + into.len() as u64)
        .max(first);
    for p in first..last {
        into[(p - at) as usize] = bytes[(p - place) as usize];
    }
}

/// What the file holds after these calls, from its contents at the start.
pub fn contents(
    alloc: Global,
    bytes: &[u8],
    entries: &[Entry],
    file: u8,
    start: &[u8],
) -> Result<Vec<u8>, AllocError>
    requires { All (FitsIn (length bytes.now)) entries.now }
    ensures { IfOk result (λ v. v.items ≡ (after_all file (at_rest start.now) (calls_of bytes.now entries.now)).reads) }
{
    let size = length_after(bytes, entries, file, start);
    let mut all = vec![in alloc; 0u8; size as usize]?;
    fill(bytes, entries, file, start, 0, all.as_mut_slice());
    Ok(all)
}
