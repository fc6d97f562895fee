// An image that is read as a whole.
ghost use Rattle.std.specs.Prelude.{◌⊎◌, ℕ, IfOk, IsErrOf};
ghost use Rattle.run_journal.specs.Image.{ArePlaced, bytes_of};
ghost use Rattle.run_journal.specs.Layout.{IsDamagedAt, Stands};

use crate::entries::Entries;
use crate::error::ImageError;
use crate::layout::MOST_IMAGE;
use crate::reader::read_list;
use std::alloc::Global;

/// The entries of the image of a journal, each with the place of its gate. An image of at most 9 bytes has none.
///
/// `Damaged` comes exactly where the bytes stand for no list of entries, with the place of the damage.
pub fn read_image(alloc: Global, bytes: &[u8]) -> Result<Entries, ImageError>
    ensures stands { IfOk result (λ entries. Stands bytes.now (bytes_of entries)) }
    ensures placed { IfOk result ArePlaced }
    ensures damaged { (place : ℕ) → IsErrOf result (ImageError.Damaged place) → IsDamagedAt bytes.now place }
    ensures damaged_only { (place : ℕ) → IsDamagedAt bytes.now place
        → (IsErrOf result (ImageError.Damaged place)) ⊎ (IsErrOf result ImageError.Memory) }
{
    if bytes.len() as u64 > MOST_IMAGE {
        return Err(ImageError::Damaged { place: MOST_IMAGE });
    }
    if bytes.len() <= 9 {
        return Ok(Entries::from_vec(Vec::new(alloc)));
    }
    match read_list(alloc, bytes) {
        Ok(found) => Ok(Entries::from_vec(found.entries)),
        Err(error) => Err(error),
    }
}
