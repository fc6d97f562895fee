// Entries appended to a journal, with what the calls require.
ghost use Rattle.std.specs.Prelude.{◌≡◌, ◌<◌, ◌≤◌, IfOk, false, length};
ghost use Rattle.cacao_site.specs.DiskCalls.{AllLeft};
ghost use Rattle.run_journal.specs.Layout.{Stands};

use cacao_site::{Bytes, Disk};
use run_journal::{Journal, JournalError};
use std::alloc::{AllocError, Global};

/// What is appended behind a first entry.
#[derive(Clone, Copy)]
pub(crate) enum Second<'a> {
    Nothing,
    Entry(&'a [u8]),
    /// An entry, where the append of the first met a fault of the disk.
    BehindAFault(&'a [u8]),
}

/// An entry of these bytes; one without bytes where there are more than 100.
fn entry(alloc: Global, bytes: &[u8]) -> Result<Bytes, AllocError>
    ensures { IfOk result (λ bytes. length bytes ≤ 100) }
{
    if bytes.len() > 100 {
        return Bytes::from_slice(alloc, b"");
    }
    Bytes::from_slice(alloc, bytes)
}

/// Opens file 0 and appends entries, where the file has none; how many it then has.
pub(crate) fn append<D: Disk>(
    alloc: Global,
    disk: &mut D,
    first: &[u8],
    second: Second<'_>,
) -> Result<u32, JournalError> {
    let mut journal = Journal::open_on(alloc, disk, 0)?;
    journal.reserve(100)?;
    if !journal.is_prepared() {
        append_to_blank(alloc, disk, &mut journal, first, second)?;
    }
    Ok(journal.count())
}

/// Prepares a blank journal and appends entries.
fn append_to_blank<D: Disk>(
    alloc: Global,
    disk: &mut D,
    journal: &mut Journal,
    first: &[u8],
    second: Second<'_>,
) -> Result<(), JournalError>
    requires file { journal.old.file ≡ 0 }
    requires prepared { journal.old.prepared ≡ false }
    requires spare { 100 < journal.old.spare }
    requires stands { AllLeft 0 (D.view disk.old).disk (λ image. Stands image journal.old.items) }
    requires short { AllLeft 0 (D.view disk.old).disk (λ image. length image ≤ 9) }
{
    match second {
        Second::Nothing => append_one(alloc, disk, journal, first),
        Second::Entry(second) => append_two(alloc, disk, journal, first, second),
        Second::BehindAFault(second) => append_after_a_fault(alloc, disk, journal, first, second),
    }
}

/// Prepares a blank journal and appends its first entry.
fn append_one<D: Disk>(
    alloc: Global,
    disk: &mut D,
    journal: &mut Journal,
    first: &[u8],
) -> Result<(), JournalError>
    requires file { journal.old.file ≡ 0 }
    requires prepared { journal.old.prepared ≡ false }
    requires spare { 100 < journal.old.spare }
    requires stands { AllLeft 0 (D.view disk.old).disk (λ image. Stands image journal.old.items) }
    requires short { AllLeft 0 (D.view disk.old).disk (λ image. length image ≤ 9) }
{
    journal.prepare(disk)?;
    journal.append(disk, entry(alloc, first)?)
}

/// Prepares a blank journal and appends two entries.
fn append_two<D: Disk>(
    alloc: Global,
    disk: &mut D,
    journal: &mut Journal,
    first: &[u8],
    second: &[u8],
) -> Result<(), JournalError>
    requires file { journal.old.file ≡ 0 }
    requires prepared { journal.old.prepared ≡ false }
    requires spare { 100 < journal.old.spare }
    requires stands { AllLeft 0 (D.view disk.old).disk (λ image. Stands image journal.old.items) }
    requires short { AllLeft 0 (D.view disk.old).disk (λ image. length image ≤ 9) }
{
    journal.prepare(disk)?;
    journal.append(disk, entry(alloc, first)?)?;
    journal.reserve(100)?;
    journal.append(disk, entry(alloc, second)?)
}

/// Appends a second entry where the append of the first met a fault of the disk.
fn append_after_a_fault<D: Disk>(
    alloc: Global,
    disk: &mut D,
    journal: &mut Journal,
    first: &[u8],
    second: &[u8],
) -> Result<(), JournalError>
    requires file { journal.old.file ≡ 0 }
    requires prepared { journal.old.prepared ≡ false }
    requires spare { 100 < journal.old.spare }
    requires stands { AllLeft 0 (D.view disk.old).disk (λ image. Stands image journal.old.items) }
    requires short { AllLeft 0 (D.view disk.old).disk (λ image. length image ≤ 9) }
{
    journal.prepare(disk)?;
    match journal.append(disk, entry(alloc, first)?) {
        Err(JournalError::Disk) => journal.append(disk, entry(alloc, second)?),
        _ => Ok(()),
    }
}
