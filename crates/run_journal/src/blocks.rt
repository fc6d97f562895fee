// A file that is read block after block.
ghost use Rattle.std.specs.Prelude.{◌≡◌, ◌≢◌, ◌⊎◌, ◌+◌, ◌/◌, ◌≤◌, ◌++◌, ℕ, List, length, take, min, All, IsTrue, IfOk, OnErr, IsErrOf, Err};
ghost use Rattle.cacao_site.specs.Counts.{Rose};
ghost use Rattle.run_journal.specs.Blocks.{OnlyReads};
ghost use Rattle.run_journal.specs.Layout.{IsEntry, front, header};

use crate::error::JournalError;
use crate::packed::Packed;
use crate::taking::{make_room, take_entries};
use cacao_site::Disk;
use std::alloc::Global;

/// The most bytes of one read.
pub const BLOCK: usize = 4_096;

/// The entries of a file in order, the bytes behind them, and where the file ends.
#[derive(Drop)]
pub struct Taken {
    pub items: Packed,
    pub tail: Vec<u8>,
    pub end: u64,
}

/// The entries of a file that ends at `end`. Of its first block the header was cut off, and `start` is what stood behind.
///
/// An entry is taken as soon as it is whole, so that beside those taken no more is held than one entry and two blocks, or
/// what stands behind a closed gate or damage. Behind the file's end no block is asked for.
pub fn read_rest<D: Disk>(
    alloc: Global,
    disk: &mut D,
    file: u8,
    end: u64,
    start: Vec<u8>,
) -> Result<Taken, JournalError>
    requires file { file ≤ 16 }
    requires high { end ≤ 67_108_864 }
    requires long { 8 + length start.items ≡ min 4096 end }
    ensures only { OnlyReads (end / 4096) (D.view disk.old) (D.view disk.new) }
    ensures short { IfOk result (λ taken. All IsEntry taken.items.items) }
    ensures long { IfOk result (λ taken. length (front taken.items.items ++ taken.tail.items) ≡ taken.end) }
    ensures high { IfOk result (λ taken. taken.end ≤ end) }
    ensures image { IfOk result (λ taken. IsTrue (D.view disk.old).disk.told → end ≡ length ((D.view disk.old).disk.reads file)
        → header ++ start.items ≡ take 4096 ((D.view disk.old).disk.reads file)
        → front taken.items.items ++ taken.tail.items ≡ (D.view disk.old).disk.reads file) }
    ensures disk { IsErrOf result JournalError.Disk → Rose (D.view disk.old).disk.faults (D.view disk.new).disk.faults }
    ensures steady { result ≢ Err JournalError.Disk → (D.view disk.new).disk.faults ≡ (D.view disk.old).disk.faults }
    ensures no_other { OnErr result ((IsErrOf result JournalError.Disk) ⊎ (IsErrOf result JournalError.Memory)) }
{
    let mut items = Packed::new(alloc);
    let mut tail = start;
    let mut ends = end;
    for block in 0..end / BLOCK as u64 {
        let at = (block + 1) * BLOCK as u64;
        if ends <= at {
            return Ok(Taken {
                items,
                tail,
                end: ends,
            });
        }
        take_entries(&mut items, &mut tail)?;
        make_room(&mut tail, ends - at)?;
        ends = read_block(disk, file, at, ends, &mut tail)?;
    }
    Ok(Taken {
        items,
        tail,
        end: ends,
    })
}

/// Adds the block at place `at` of a file up to place `end`, and answers where the file then ends.
///
/// Where a read gives fewer bytes than were asked for, the file ends there.
pub fn read_block<D: Disk>(
    disk: &mut D,
    file: u8,
    at: u64,
    end: u64,
    tail: &mut Vec<u8>,
) -> Result<u64, JournalError>
    requires file { file ≤ 16 }
    requires low { at ≤ end }
    requires high { end ≤ 67_108_864 }
    ensures only { OnlyReads 1 (D.view disk.old) (D.view disk.new) }
    ensures low { IfOk result (λ ends. (at ≤ ends) × (ends ≤ end)) }
    ensures long { IfOk result (λ ends. at + length tail.new.items ≡ length tail.old.items + min (at + 4096) ends) }
    ensures image { IfOk result (λ ends. IsTrue (D.view disk.old).disk.told → end ≡ length ((D.view disk.old).disk.reads file)
        → (ends ≡ end) × ((before : List ℕ) → before ++ tail.old.items ≡ take at ((D.view disk.old).disk.reads file)
        → before ++ tail.new.items ≡ take (at + 4096) ((D.view disk.old).disk.reads file))) }
    ensures disk { IsErrOf result JournalError.Disk → Rose (D.view disk.old).disk.faults (D.view disk.new).disk.faults }
    ensures steady { result ≢ Err JournalError.Disk → (D.view disk.new).disk.faults ≡ (D.view disk.old).disk.faults }
    ensures no_other { OnErr result ((IsErrOf result JournalError.Disk) ⊎ (IsErrOf result JournalError.Memory)) }
{
    let wanted = (end - at).min(BLOCK as u64) as usize;
    let mut block = [0u8; BLOCK];
    let into = &mut block[..wanted];
    match disk.read(file, at, into) {
        Ok(count) => {
            tail.extend_from_slice(&into[..count as usize])?;
            if (count as usize) < wanted {
                Ok(at + count as u64)
            } else {
                Ok(end)
            }
        }
        Err(_) => Err(JournalError::Disk),
    }
}
