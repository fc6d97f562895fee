// The calls of a disk.
ghost use Rattle.std.specs.Prelude.{◌≤◌};

use crate::answers::{FILLER, counted, done, no_such_row, read_into, text, whole};
use crate::composed::{sync_often, write_and_sync};
use crate::fields::{number, small};
use crate::many::{read_blocks, write_pieces};
use cacao_site::Disk;
use std::alloc::{AllocError, Global};
use test_rows::Row;

/// The most bytes of a file of a disk.
pub(crate) const MOST: u64 = 67_108_864;

/// The answer to a row that is a call of a disk, by the name of the call and the number of a file, 0 to 16; `no such row` where it is none.
///
/// `length FILE`, `read FILE AT COUNT`, `write FILE AT BYTES`, `sync FILE`; `write_and_sync FILE AT BYTES` and `sync_often FILE TIMES`;
/// `front_unlike FILE FRONT BYTES OTHERS` tells whether a file begins so and has neither these bytes nor the others; `write_pieces FILE
/// COUNT` and `read_blocks FILE COUNT` are many calls (`many`).
pub(crate) fn disk_answer<D: Disk>(
    alloc: Global,
    disk: &mut D,
    row: &Row,
) -> Result<Vec<u8>, AllocError> {
    let file = small(row, 1);
    if file > 16 {
        return no_such_row(alloc);
    }
    match row.text(0) {
        "length" => counted(alloc, disk.length(file)),
        "read" => read(alloc, disk, file, number(row, 2), number(row, 3)),
        "write" => write(alloc, disk, file, number(row, 2), row.bytes(3)),
        "sync" => done(alloc, disk.sync(file)),
        _ => composed_answer(alloc, disk, file, row),
    }
}

/// The answer to a row that is several calls.
fn composed_answer<D: Disk>(
    alloc: Global,
    disk: &mut D,
    file: u8,
    row: &Row,
) -> Result<Vec<u8>, AllocError>
    requires { file ≤ 16 }
{
    match row.text(0) {
        "write_and_sync" => write_durably(alloc, disk, file, number(row, 2), row.bytes(3)),
        "sync_often" => {
            sync_often(disk, file, small(row, 2));
            text(alloc, "ok")
        }
        "front_unlike" => front_unlike(alloc, disk, file, row),
        "write_pieces" => done(alloc, write_pieces(disk, file, number(row, 2))),
        "read_blocks" => counted(alloc, read_blocks(disk, file, number(row, 2))),
        _ => no_such_row(alloc),
    }
}

/// Reads at most 4,096 bytes.
pub(crate) fn read<D: Disk>(
    alloc: Global,
    disk: &mut D,
    file: u8,
    at: u64,
    count: u64,
) -> Result<Vec<u8>, AllocError>
    requires { file ≤ 16 }
{
    let mut block = [FILLER; 4096];
    let wanted = count.min(4096) as usize;
    match disk.read(file, at, &mut block[..wanted]) {
        Ok(count) => read_into(alloc, &block[..wanted], count),
        Err(_) => text(alloc, "failed"),
    }
}

pub(crate) fn write<D: Disk>(
    alloc: Global,
    disk: &mut D,
    file: u8,
    at: u64,
    bytes: &[u8],
) -> Result<Vec<u8>, AllocError>
    requires { file ≤ 16 }
{
    if at > MOST || bytes.len() as u64 > MOST - at {
        return text(alloc, "too far");
    }
    done(alloc, disk.write(file, at, bytes))
}

fn write_durably<D: Disk>(
    alloc: Global,
    disk: &mut D,
    file: u8,
    at: u64,
    bytes: &[u8],
) -> Result<Vec<u8>, AllocError>
    requires { file ≤ 16 }
{
    if at > MOST || bytes.len() as u64 > MOST - at {
        return text(alloc, "too far");
    }
    done(alloc, write_and_sync(disk, file, at, bytes))
}

/// How many bytes a front has, where it begins with those of field 2 and is neither those of field 3 nor those of field 4.
fn unlike(alloc: Global, front: &[u8], row: &Row) -> Result<Vec<u8>, AllocError> {
    if !front.starts_with(row.bytes(2)) {
        return text(alloc, "begins otherwise");
    }
    if front == row.bytes(3) || front == row.bytes(4) {
        return text(alloc, "alike");
    }
    whole(alloc, front.len() as u64)
}

/// The same of the front of a file, at most 16 bytes.
fn front_unlike<D: Disk>(
    alloc: Global,
    disk: &mut D,
    file: u8,
    row: &Row,
) -> Result<Vec<u8>, AllocError>
    requires { file ≤ 16 }
{
    let mut block = [0u8; 16];
    match disk.read(file, 0, &mut block) {
        Ok(count) => unlike(alloc, &block[..(count as usize).min(16)], row),
        Err(_) => text(alloc, "failed"),
    }
}
