// Rows about journals.
use crate::appends::{Second, append};
use crate::bounds::bounded;
use crate::disks::{Disks, small_site};
use crate::images::{image_count, image_entries};
use crate::plans::failing_plan;
use cacao_site::Disk;
use cacao_site_memory::MemorySite;
use run_journal::{Journal, JournalError};
use std::alloc::{AllocError, Global};
use test_rows::Row;
use test_site_calls::answers::{text, whole};
use test_site_calls::number;

/// What a journal refuses with.
fn refused(alloc: Global, error: JournalError) -> Result<Vec<u8>, AllocError> {
    Ok(format!(in alloc; "{error}")?.into_bytes())
}

/// A count, or what a journal refuses with.
fn counted(alloc: Global, count: Result<u32, JournalError>) -> Result<Vec<u8>, AllocError> {
    match count {
        Ok(count) => whole(alloc, u64::from(count)),
        Err(error) => refused(alloc, error),
    }
}

/// How many entries the journal of file 0 opens with.
fn open<D: Disk>(alloc: Global, disk: &mut D) -> Result<u32, JournalError> {
    Ok(Journal::open_on(alloc, disk, 0)?.count())
}

/// How many entries a file of these bytes, at most 10,000, opens with.
fn open_bytes(alloc: Global, bytes: &[u8]) -> Result<u32, JournalError> {
    let mut site = small_site(alloc)?;
    if bytes.len() > 10_000 || site.write(0, 0, bytes).is_err() {
        return Err(JournalError::Disk);
    }
    open(alloc, &mut site)
}

/// How many entries the journal opens with behind a crash, where the plan of the site starts anew.
fn open_behind(alloc: Global, site: &mut MemorySite) -> Result<u32, JournalError> {
    // these calls meet the failing one
    for _ in 0..20u8 {
        let _ = site.length(1);
    }
    open(alloc, site)
}

/// What an opening finds where this call fails in an append and a crash that is picked so follows; an error where the append met none.
fn crashed(
    alloc: Global,
    call: u32,
    choice: u64,
    one: &[u8],
    more: Second<'_>,
) -> Result<u32, JournalError> {
    let mut site = MemorySite::new(alloc, failing_plan(alloc, call)?)?;
    if append(alloc, &mut site, one, more) != Err(JournalError::Disk) {
        return Err(JournalError::Broken);
    }
    let mut site = site.crash(choice)?;
    open_behind(alloc, &mut site)
}

/// The least and the greatest count of entries that an opening finds behind the crashes of a list of choices, where this call fails.
fn crashes(
    alloc: Global,
    call: u32,
    choices: &str,
    one: &[u8],
    more: Second<'_>,
) -> Result<(u32, u32), JournalError> {
    let mut least = u32::MAX;
    let mut most = 0u32;
    for choice in choices.split(',') {
        let choice = choice.parse::<u64>().unwrap_or(0);
        let found = crashed(alloc, call, choice, one, more)?;
        least = least.min(found);
        most = most.max(found);
    }
    Ok((least, most))
}

/// The answer to a row of crashes: `within` where all counts lie from the least to the most that a crash may leave, else the least and the most
/// that were found, or what the first refusal was.
fn crashes_answer(
    alloc: Global,
    row: &Row,
    more: Second<'_>,
    least: u64,
    most: u64,
) -> Result<Vec<u8>, AllocError> {
    let call = number(row, 1).min(100) as u32;
    match crashes(alloc, call, row.text(2), row.bytes(3), more) {
        Ok((low, high)) => bounded(alloc, low, high, least, most),
        Err(error) => refused(alloc, error),
    }
}

/// The one answer to what files open with that hold the bytes up to each length of these.
fn open_fronts(
    alloc: Global,
    bytes: &[u8],
    first: usize,
    last: usize,
) -> Result<Vec<u8>, AllocError> {
    let last = last.min(bytes.len());
    let first = first.min(last);
    let one = open_bytes(alloc, &bytes[..first]);
    for length in first..last {
        if open_bytes(alloc, &bytes[..length + 1]) != one {
            return text(alloc, "not all alike");
        }
    }
    counted(alloc, one)
}

/// The answer where a second entry is appended behind a fault of the first append.
fn append_behind(
    alloc: Global,
    site: &mut MemorySite,
    one: &[u8],
    more: &[u8],
) -> Result<Vec<u8>, AllocError> {
    match append(alloc, site, one, Second::BehindAFault(more)) {
        Ok(_) => text(alloc, "ok"),
        Err(error) => refused(alloc, error),
    }
}

impl Disks {
    /// The answer to a row about journals, or else about filters, the site or the shelf.
    ///
    /// `open BYTES` is how many entries a file opens with, `fronts FIRST LAST` the same for the front of the bytes at each length, `journal` for
    /// file 0 of the site. `image BYTES` and `entries BYTES` read an image as a whole. `append_one BYTES` and `append_two BYTES BYTES` append to
    /// the blank journal of the site, and `append_behind BYTES BYTES` tells what the second append answers behind a fault of the first.
    /// `crashes_one CALL CHOICES BYTES LEAST MOST` and `crashes_two CALL CHOICES BYTES BYTES LEAST MOST` append on a site where this call fails, and tell
    /// whether behind each crash that is picked so the count of entries lies between the two.
    pub(crate) fn journal_answer(&mut self, row: &Row) -> Result<Vec<u8>, AllocError> {
        let alloc = self.alloc;
        match row.text(0) {
            "open" => counted(alloc, open_bytes(alloc, row.bytes(1))),
            "fronts" => {
                let first = number(row, 1).min(10_000) as usize;
                let last = number(row, 2).min(10_000) as usize;
                open_fronts(alloc, self.bytes.as_slice(), first, last)
            }
            "journal" => counted(alloc, open(alloc, &mut self.site)),
            "image" => image_count(alloc, row.bytes(1)),
            "entries" => image_entries(alloc, row.bytes(1)),
            _ => self.append_answer(row),
        }
    }

    fn append_answer(&mut self, row: &Row) -> Result<Vec<u8>, AllocError> {
        match row.text(0) {
            "append_one" => self.append(row.bytes(1), Second::Nothing),
            "append_two" => self.append(row.bytes(1), Second::Entry(row.bytes(2))),
            "append_behind" => append_behind(
                self.alloc,
                &mut self.site,
                row.bytes(1),
                row.bytes(2),
            ),
            "crashes_one" => {
                let (least, most) = (number(row, 4), number(row, 5));
                crashes_answer(self.alloc, row, Second::Nothing, least, most)
            }
            "crashes_two" => {
                let (least, most) = (number(row, 5), number(row, 6));
                crashes_answer(self.alloc, row, Second::Entry(row.bytes(4)), least, most)
            }
            _ => self.filter_answer(row),
        }
    }

    fn append(&mut self, first: &[u8], second: Second<'_>) -> Result<Vec<u8>, AllocError> {
        counted(
            self.alloc,
            append(self.alloc, &mut self.site, first, second),
        )
    }
}
