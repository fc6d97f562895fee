// Many calls, which take linear time: where a call looked through those before it, 131,072 pieces would be 17,000,000,000 looks.
ghost use Rattle.std.specs.Prelude.{◌≤◌};

use cacao_site::{Disk, Failed};

/// Writes a blank file in so many pieces of 16 bytes, at most 1,000,000, each after its length was asked.
pub(crate) fn write_pieces<D: Disk>(disk: &mut D, file: u8, pieces: u64) -> Result<(), Failed>
    requires { file ≤ 16 }
{
    for piece in 0..pieces.min(1_000_000) {
        if disk.length(file)? != piece * 16 {
            return Err(Failed);
        }
        disk.write(file, piece * 16, b"0123456789abcdef")?;
    }
    Ok(())
}

/// How many bytes so many blocks of a file have, at most 16,384, where each begins as its pieces do.
pub(crate) fn read_blocks<D: Disk>(disk: &mut D, file: u8, blocks: u64) -> Result<u64, Failed>
    requires { file ≤ 16 }
{
    let mut block = [0u8; 4096];
    let mut total = 0u64;
    for number in 0..blocks.min(16_384) {
        let count = disk.read(file, number * 4096, &mut block)?;
        if block.starts_with(b"0123456789abcdef0123") {
            total = total.saturating_add(u64::from(count));
        }
    }
    Ok(total)
}
