// Entries that are taken out of the blocks of a file.
ghost use Rattle.std.specs.Prelude.{◌≡◌, ◌≢◌, ◌+◌, ◌≤◌, ◌∷◌, List, ℕ, drop, length, OnOk, IfOk, true, false};
ghost use Rattle.run_journal.specs.Layout.{Begins, IsBroken, front};
ghost use Rattle.run_journal.specs.Taking.{Joins};

use crate::blocks::BLOCK;
use crate::layout::{MOST_ENTRY, MOST_IMAGE};
use crate::packed::Packed;
use crate::reader::split_entry;
use std::alloc::AllocError;

/// Takes the whole entries off the front of the tail, and answers whether what stands behind them is no closed gate.
pub fn take_entries(items: &mut Packed, tail: &mut Vec<u8>) -> Result<bool, AllocError>
    requires { length (front items.old.items) + length tail.old.items ≤ 67_108_864 }
    ensures begins { OnOk result ((image : List ℕ) → Begins image items.old.items tail.old.items → Begins image items.new.items tail.new.items) }
    ensures broken { IfOk result (λ broken. broken ≡ true → IsBroken tail.new.items) }
    ensures closed { IfOk result (λ broken. broken ≡ false
        → (gate : ℕ) × (rest : List ℕ) × (tail.new.items ≡ gate ∷ rest) × (gate ≢ 1)) }
{
    let behind = pack_entries(items, tail.as_slice())?;
    let broken = behind.broken;
    let taken = tail.len() - behind.rest.len();
    cut_front(tail, taken);
    Ok(broken)
}

/// What stands behind whole entries, and whether that is no closed gate.
#[derive(Drop)]
struct Behind<'a> {
    rest: &'a [u8],
    broken: bool,
}

/// Adds the whole entries at the front of these bytes.
fn pack_entries<'a>(items: &mut Packed, bytes: &'a [u8]) -> Result<Behind<'a>, AllocError>
    requires { length (front items.old.items) + length bytes.now ≤ 67_108_864 }
    ensures joins { IfOk result (λ behind. Joins bytes.now items.old.items items.new.items behind.rest.now) }
    ensures broken { IfOk result (λ behind. behind.broken ≡ true → IsBroken behind.rest.now) }
    ensures closed { IfOk result (λ behind. behind.broken ≡ false
        → (gate : ℕ) × (rest : List ℕ) × (behind.rest.now ≡ gate ∷ rest) × (gate ≢ 1)) }
{
    let mut rest = bytes;
    while let Some((item, after)) = split_entry(rest) {
        items.push(item)?;
        rest = after;
    }
    let broken = match rest {
        [] | [1, ..] => true,
        [_, ..] => false,
    };
    Ok(Behind { rest, broken })
}

/// Cuts so many bytes off the front.
pub fn cut_front(bytes: &mut Vec<u8>, count: usize)
    requires { count ≤ length bytes.old.items }
    ensures { bytes.new.items ≡ drop count bytes.old.items }
{
    bytes.drain(..count);
}

/// Makes room for what is still to join the tail: the rest of the entry that it begins with and a block behind it, or all
/// `left` bytes of the file where no entry begins. So memory for long runs of bytes is taken once.
pub fn make_room(tail: &mut Vec<u8>, left: u64) -> Result<(), AllocError>
    requires { left ≤ 67_108_864 }
    ensures { tail.new.items ≡ tail.old.items }
{
    tail.reserve_exact(room_for(tail.as_slice()).min(left as usize))
}

/// How many bytes are to join the tail: 0 where that is not known yet, and the most of a file where all do.
fn room_for(tail: &[u8]) -> usize {
    match tail {
        [1, a, b, c, d, after @ ..] => {
            let size = u32::from_be_bytes([*a, *b, *c, *d]) as usize;
            if size <= MOST_ENTRY {
                (size + BLOCK).saturating_sub(after.len())
            } else {
                MOST_IMAGE as usize
            }
        }
        [] | [1, ..] => 0,
        [_, ..] => MOST_IMAGE as usize,
    }
}
