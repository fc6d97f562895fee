// Calls of the program, and what came of them.
use cacao_site::Disk;
use cacao_site_memory::{CallList, MemoryShelf, MemorySite, SitePlan, WeatherList};
use cacao_view::view;
use std::alloc::{AllocError, Global};
use test_rows::Row;

/// How many device calls write the engine's file.
const WRITING: i128 = 2;

/// The device calls that fail: the one of this number, or none.
fn failing(alloc: Global, call: Option<i128>) -> Result<CallList, AllocError> {
    let mut calls = Vec::new(alloc);
    if let Some(call) = call {
        if let Ok(call) = u32::try_from(call) {
            calls.push(call)?;
        }
    }
    Ok(CallList::from_vec(calls))
}

/// A site in memory on which this call fails.
fn site(alloc: Global, failing: CallList) -> Result<MemorySite, AllocError> {
    let plan = SitePlan {
        room: 65536,
        calls: 1024,
        start: 0,
        stop_clock: u64::MAX,
        failing,
        weather: WeatherList::from_vec(Vec::new(alloc)),
    };
    MemorySite::new(alloc, plan)
}

/// A site whose engine's file has these bytes, if it is there. The call that fails is counted from behind the calls that write the file.
fn site_with(
    alloc: Global,
    journal: Option<&[u8]>,
    call: Option<i128>,
) -> Result<MemorySite, AllocError> {
    let Some(bytes) = journal else {
        return site(alloc, failing(alloc, call)?);
    };
    let late = call.map(|call| call.saturating_add(WRITING));
    let mut site = site(alloc, failing(alloc, late)?)?;
    if bytes.len() <= 65_536 {
        let _ = site.write(0, 0, bytes);
        let _ = site.sync(0);
    }
    Ok(site)
}

/// A shelf with these bytes as `e.journal`, if they are there, on which the read of this number fails.
fn shelf_with(
    alloc: Global,
    journal: Option<&[u8]>,
    read: Option<i128>,
) -> Result<MemoryShelf, AllocError> {
    let mut shelf = shelf_of(alloc, &[], read)?;
    if let Some(bytes) = journal {
        shelf.add("e.journal", bytes)?;
    }
    Ok(shelf)
}

/// A shelf with these files, each a row of a name and bytes, on which the read of this number fails.
fn shelf_of(alloc: Global, files: &[Row], read: Option<i128>) -> Result<MemoryShelf, AllocError> {
    let mut shelf = MemoryShelf::new(alloc);
    for row in files {
        shelf.add(row.text(0), row.bytes(1))?;
    }
    if let Some(read) = read {
        if let Ok(read) = u32::try_from(read) {
            shelf.fail_at(read);
        }
    }
    Ok(shelf)
}

/// The words of a line; an empty line has none.
fn words(alloc: Global, line: &str) -> Result<Vec<String>, AllocError> {
    let mut words = Vec::new(alloc);
    if line.is_empty() {
        return Ok(words);
    }
    for word in line.split(' ') {
        words.push(String::from_str(alloc, word)?)?;
    }
    Ok(words)
}

/// The bytes of a line said; none where there is no line of that number.
fn line_said(site: &MemorySite, n: usize) -> &[u8] {
    if n >= site.line_count() {
        return b"";
    }
    site.line(n)
}

/// A status, and behind it the lines that were said.
fn told(alloc: Global, status: u8, site: &MemorySite) -> Result<Vec<u8>, AllocError> {
    let mut came = format!(in alloc; "{status}: ")?.into_bytes();
    for n in 0..site.line_count() {
        came.extend_from_slice(line_said(site, n))?;
    }
    Ok(came)
}

/// The status of a call with the words of a line, and behind it the lines that it said.
// (it promises nothing, so that what a call does is proved once and not in each function that plays one)
fn called(
    alloc: Global,
    line: &str,
    shelf: &mut MemoryShelf,
    site: &mut MemorySite,
) -> Result<Vec<u8>, AllocError> {
    let words = words(alloc, line)?;
    let status = view(alloc, words.as_slice(), shelf, site);
    told(alloc, status, site)
}

/// The status of a call with these words over these files, and behind it the lines that it said; the read and the device call of these
/// numbers fail.
pub(crate) fn answer(
    alloc: Global,
    line: &str,
    files: &[Row],
    read: Option<i128>,
    call: Option<i128>,
) -> Result<Vec<u8>, AllocError> {
    let mut shelf = shelf_of(alloc, files, read)?;
    let mut site = site(alloc, failing(alloc, call)?)?;
    called(alloc, line, &mut shelf, &mut site)
}

/// The same where the disk has this engine's file, and the shelf that one as `e.journal`.
pub(crate) fn answer_about(
    alloc: Global,
    line: &str,
    disk: Option<&[u8]>,
    named: Option<&[u8]>,
    read: Option<i128>,
    call: Option<i128>,
) -> Result<Vec<u8>, AllocError> {
    let mut shelf = shelf_with(alloc, named, read)?;
    let mut site = site_with(alloc, disk, call)?;
    called(alloc, line, &mut shelf, &mut site)
}
