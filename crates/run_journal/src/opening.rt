// The opening of a journal.
ghost use Rattle.std.specs.Prelude.{◌≡◌, ◌≢◌, ◌↔◌, ◌+◌, ◌/◌, ◌<◌, ◌≤◌, ◌++◌, ℕ, length, All, IsTrue, true, false, IfOk, IsErrOf, Err};
ghost use Rattle.cacao_site.specs.Counts.{Rose};
ghost use Rattle.cacao_site.specs.DiskCalls.{StaysAt, SameRest, EachBeat, IsLeft, IsDurable};
ghost use Rattle.run_journal.specs.Blocks.{OnlyReads};
ghost use Rattle.run_journal.specs.Layout.{BreaksAt, HasLayout, IsDamagedAt, IsEntry, Stands, front};

use crate::blocks::{Taken, read_block, read_rest};
use crate::error::JournalError;
use crate::journal::Journal;
use crate::layout::{HEADER_SIZE, MOST_IMAGE};
use crate::reader::header_break;
use crate::taking::{cut_front, take_entries};
use cacao_site::Disk;
use std::alloc::Global;

impl Journal {
    /// Syncs the file, and then reads it block after block. It writes nothing.
    ///
    /// A file of at most 9 bytes has no entry; its header is still to be written by `prepare`.
    pub fn open_on<D: Disk>(alloc: Global, disk: &mut D, file: u8) -> Result<Journal, JournalError>
        requires { file ≤ 16 }

        // Each image on the way was one before.
        ensures each_beat { EachBeat file (D.view disk.old).disk (D.view disk.new).disk
            (IsLeft (D.view disk.old).disk file (D.view disk.old).disk.beat) }
        ensures others { (other : ℕ) → other ≢ file → StaysAt (D.view disk.old).disk (D.view disk.new).disk other }
        ensures rest { SameRest (D.view disk.old) (D.view disk.new) }
        ensures calls { IsTrue (D.view disk.old).disk.told
            → (D.view disk.new).disk.calls ≤ (D.view disk.old).disk.calls + 3 + length ((D.view disk.new).disk.reads file) / 4096 }
        ensures bytes { (D.view disk.new).disk.written ≤ (D.view disk.old).disk.written }
        ensures reads { result ≢ Err JournalError.Disk → (D.view disk.new).disk.reads file ≡ (D.view disk.old).disk.reads file }

        // The one image then stands for the value's list.
        ensures durable { IfOk result (λ journal. IsDurable file (D.view disk.new).disk) }
        ensures stands { IfOk result (λ journal. IsTrue (D.view disk.old).disk.told → Stands ((D.view disk.new).disk.reads file) journal.items) }
        ensures file { IfOk result (λ journal. journal.file ≡ file) }
        ensures whole { IfOk result (λ journal. (journal.broken ≡ false) × (journal.spare ≡ 0)) }
        ensures prepared { IfOk result (λ journal. IsTrue (D.view disk.old).disk.told
            → IsTrue journal.prepared ↔ (9 < length ((D.view disk.new).disk.reads file))) }

        ensures damaged_durable { (place : ℕ) → IsErrOf result (JournalError.Damaged place) → IsDurable file (D.view disk.new).disk }
        ensures damaged { (place : ℕ) → IsErrOf result (JournalError.Damaged place) → IsTrue (D.view disk.old).disk.told
            → IsDamagedAt ((D.view disk.new).disk.reads file) place }
        ensures disk { IsErrOf result JournalError.Disk → Rose (D.view disk.old).disk.faults (D.view disk.new).disk.faults }
        // No other answer counts a fault.
        ensures steady { result ≢ Err JournalError.Disk → (D.view disk.new).disk.faults ≡ (D.view disk.old).disk.faults }
        ensures no_other { (needed : ℕ) → (result ≢ Err JournalError.Broken) × (result ≢ Err (JournalError.Full needed)) }
    {
        if disk.sync(file).is_err() {
            return Err(JournalError::Disk);
        }
        let Ok(size) = disk.length(file) else {
            return Err(JournalError::Disk);
        };
        if size > MOST_IMAGE {
            return Err(JournalError::Damaged { place: MOST_IMAGE });
        }
        match read_journal(alloc, disk, file, size) {
            Ok(journal) => Ok(journal),
            Err(error) => Err(error),
        }
    }
}

/// The journal of a file of this size, which is read block after block.
fn read_journal<D: Disk>(
    alloc: Global,
    disk: &mut D,
    file: u8,
    size: u64,
) -> Result<Journal, JournalError>
    requires file { file ≤ 16 }
    requires high { size ≤ 67_108_864 }
    ensures only { OnlyReads (size / 4096 + 1) (D.view disk.old) (D.view disk.new) }
    ensures stands { IfOk result (λ journal. IsTrue (D.view disk.old).disk.told → size ≡ length ((D.view disk.old).disk.reads file)
        → Stands ((D.view disk.old).disk.reads file) journal.items) }
    ensures file { IfOk result (λ journal. journal.file ≡ file) }
    ensures whole { IfOk result (λ journal. (journal.broken ≡ false) × (journal.spare ≡ 0)) }
    ensures prepared { IfOk result (λ journal. IsTrue (D.view disk.old).disk.told → size ≡ length ((D.view disk.old).disk.reads file)
        → IsTrue journal.prepared ↔ (9 < length ((D.view disk.old).disk.reads file))) }
    ensures damaged { (place : ℕ) → IsErrOf result (JournalError.Damaged place) → IsTrue (D.view disk.old).disk.told
        → size ≡ length ((D.view disk.old).disk.reads file) → IsDamagedAt ((D.view disk.old).disk.reads file) place }
    ensures disk { IsErrOf result JournalError.Disk → Rose (D.view disk.old).disk.faults (D.view disk.new).disk.faults }
    ensures steady { result ≢ Err JournalError.Disk → (D.view disk.new).disk.faults ≡ (D.view disk.old).disk.faults }
    ensures no_other { (needed : ℕ) → (result ≢ Err JournalError.Broken) × (result ≢ Err (JournalError.Full needed)) }
{
    let mut tail = Vec::new(alloc);
    let end = match read_block(disk, file, 0, size, &mut tail) {
        Ok(end) => end,
        Err(error) => return Err(error),
    };
    if tail.len() <= 9 {
        return Ok(Journal::blank(alloc, file));
    }
    if let Some(place) = header_break(tail.as_slice()) {
        return Err(JournalError::Damaged { place });
    }
    cut_front(&mut tail, HEADER_SIZE);
    match read_rest(alloc, disk, file, end, tail) {
        Ok(taken) => match found_in(alloc, file, taken) {
            Ok(journal) => Ok(journal),
            Err(error) => Err(error),
        },
        Err(error) => Err(error),
    }
}

/// The journal of a file of which all was read.
fn found_in(alloc: Global, file: u8, taken: Taken) -> Result<Journal, JournalError>
    requires file { file ≤ 16 }
    requires short { All IsEntry taken.items.items }
    requires long { length (front taken.items.items ++ taken.tail.items) ≡ taken.end }
    requires high { taken.end ≤ 67_108_864 }
    ensures layout { IfOk result (λ journal. HasLayout journal.items (front taken.items.items ++ taken.tail.items)) }
    ensures file { IfOk result (λ journal. journal.file ≡ file) }
    ensures state { IfOk result (λ journal. (journal.broken ≡ false) × (journal.prepared ≡ true) × (journal.spare ≡ 0)) }
    ensures damaged { (place : ℕ) → IsErrOf result (JournalError.Damaged place) → BreaksAt (front taken.items.items ++ taken.tail.items) place }
    ensures no_other { (needed : ℕ) → (result ≢ Err JournalError.Disk) × (result ≢ Err JournalError.Broken) × (result ≢ Err (JournalError.Full needed)) }
{
    let Taken {
        mut items,
        mut tail,
        end,
    } = taken;
    let broken = take_entries(&mut items, &mut tail)?;
    let gate = end - tail.len() as u64;
    if broken {
        return Err(JournalError::Damaged { place: gate });
    }
    Ok(Journal::found(alloc, file, items, gate))
}
