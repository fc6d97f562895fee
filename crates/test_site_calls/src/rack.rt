// The calls of a rack: its run files, and its files as a run sees them.
ghost use Rattle.std.specs.Prelude.{◌≤◌};

use crate::answers::{FILLER, counted, done, no_such_row, read_into, text};
use crate::composed::sync_seen;
use crate::disk::{MOST, read, write};
use crate::fields::{number, small};
use crate::site::site_answer;
use cacao_site::{Disk, Rack, RunView};
use std::alloc::{AllocError, Global};
use test_rows::Row;

/// The answer to a row that is a call of a rack, by the name of the call and the number of a run file, 1 to 15, or else of its site;
/// `no such row` where it is none.
///
/// `run_length FILE`, `run_read FILE AT COUNT`, `run_write FILE AT BYTES`, `run_sync FILE`. `seen_read PLACE FILE AT COUNT` and `seen_write PLACE
/// FILE AT BYTES` are calls of the disk that the run at a place, 0 to 15, sees, and `seen_sync PLACE` is one on its file 0.
pub(crate) fn rack_answer<R: Rack>(
    alloc: Global,
    rack: &mut R,
    row: &Row,
) -> Result<Vec<u8>, AllocError> {
    let file = small(row, 1);
    if file == 0 || file > 15 {
        return seen_answer(alloc, rack, row);
    }
    match row.text(0) {
        "run_length" => counted(alloc, rack.run_length(file)),
        "run_read" => run_read(alloc, rack, file, number(row, 2), number(row, 3)),
        "run_write" => run_write(alloc, rack, file, number(row, 2), row.bytes(3)),
        "run_sync" => done(alloc, rack.run_sync(file)),
        _ => seen_answer(alloc, rack, row),
    }
}

/// The answer to a row that is a call of what a run sees, or else of the site.
fn seen_answer<R: Rack>(alloc: Global, rack: &mut R, row: &Row) -> Result<Vec<u8>, AllocError> {
    let place = small(row, 1);
    if place > 15 {
        return site_answer(alloc, rack, row);
    }
    match row.text(0) {
        "seen_sync" => done(alloc, sync_seen(rack, place)),
        "seen_read" | "seen_write" => {
            let mut view = RunView::new(rack, place);
            seen_file_answer(alloc, &mut view, row)
        }
        _ => site_answer(alloc, rack, row),
    }
}

/// The answer to a row that reads or writes a file which a run sees.
fn seen_file_answer<D: Disk>(
    alloc: Global,
    disk: &mut D,
    row: &Row,
) -> Result<Vec<u8>, AllocError> {
    let file = small(row, 2);
    if file > 16 {
        return no_such_row(alloc);
    }
    match row.text(0) {
        "seen_read" => read(alloc, disk, file, number(row, 3), number(row, 4)),
        _ => write(alloc, disk, file, number(row, 3), row.bytes(4)),
    }
}

/// Reads at most 4,096 bytes.
fn run_read<R: Rack>(
    alloc: Global,
    rack: &mut R,
    file: u8,
    at: u64,
    count: u64,
) -> Result<Vec<u8>, AllocError>
    requires low { 1 ≤ file }
    requires high { file ≤ 15 }
{
    let mut block = [FILLER; 4096];
    let wanted = count.min(4096) as usize;
    match rack.run_read(file, at, &mut block[..wanted]) {
        Ok(count) => read_into(alloc, &block[..wanted], count),
        Err(_) => text(alloc, "failed"),
    }
}

fn run_write<R: Rack>(
    alloc: Global,
    rack: &mut R,
    file: u8,
    at: u64,
    bytes: &[u8],
) -> Result<Vec<u8>, AllocError>
    requires low { 1 ≤ file }
    requires high { file ≤ 15 }
{
    if at > MOST || bytes.len() as u64 > MOST - at {
        return text(alloc, "too far");
    }
    done(alloc, rack.run_write(file, at, bytes))
}
