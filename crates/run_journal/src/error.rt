// Why a journal refuses, and why an image is not read.
use std::alloc::{AllocError, AllocFailed};
use thiserror::Error;

/// Why a journal was not opened, or an entry not added.
#[derive(Clone, Copy, Debug, Drop, Error, PartialEq, Eq)]
pub enum JournalError {
    /// A call on the disk failed. The value answers `Broken` from then on.
    #[error("the disk failed")]
    Disk,
    /// The bytes of the file stand for no list.
    #[error("damaged at {place}")]
    Damaged { place: u64 },
    /// The file would have this many bytes up to its closed gate, which is more than 67,108,864.
    #[error("full at {length}")]
    Full { length: u64 },
    /// A call of this value answered `Disk`; the file is to be opened again.
    #[error("broken")]
    Broken,
    #[error("out of memory")]
    Memory,
}

/// Why the entries of an image were not read.
#[derive(Clone, Copy, Debug, Drop, Error, PartialEq, Eq)]
pub enum ImageError {
    /// The bytes stand for no list of entries.
    #[error("damaged at {place}")]
    Damaged { place: u64 },
    #[error("out of memory")]
    Memory,
}

impl From<AllocError> for ImageError {
    ghost use Rattle.std.specs.Prelude.{◌≡◌};
    ghost use Rattle.run_journal.specs.declared.error.ImageError.TheVariants.{Memory};

    ghost from_gives = { λ _ e. e ≡ Memory };

    fn from(_refused: AllocError) -> ImageError {
        ImageError::Memory
    }
}

impl From<AllocError> for JournalError {
    ghost use Rattle.std.specs.Prelude.{◌≡◌};
    ghost use Rattle.run_journal.specs.declared.error.JournalError.TheVariants.{Memory};

    ghost from_gives = { λ _ e. e ≡ Memory };

    fn from(_refused: AllocError) -> JournalError {
        JournalError::Memory
    }
}

impl<T: Drop> From<AllocFailed<T>> for JournalError {
    ghost use Rattle.std.specs.Prelude.{◌≡◌};
    ghost use Rattle.run_journal.specs.declared.error.JournalError.TheVariants.{Memory};

    ghost from_gives = { λ _ e. e ≡ Memory };

    fn from(_refused: AllocFailed<T>) -> JournalError {
        JournalError::Memory
    }
}
