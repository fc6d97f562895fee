// Why a filter refuses.
use run_journal::JournalError;
use std::alloc::AllocError;
use thiserror::Error;

/// Why a filter was not opened, or a command not handled.
///
/// After `Disk`, `Full` or `Memory` of `handle` the value answers `Broken` until the file is opened again.
#[derive(Clone, Copy, Debug, Drop, Error, PartialEq, Eq)]
pub enum ActError {
    /// The disk failed.
    #[error("the disk failed")]
    Disk,
    /// The bytes of the file stand for no list, or the entry at this place, in bytes, is no act that may follow those
    /// before it.
    #[error("damaged at {place}")]
    Damaged { place: u64 },
    /// The file would have this many bytes up to its closed gate, which is more than 67,108,864.
    #[error("full at {length}")]
    Full { length: u64 },
    /// A call of `handle` was refused; the file is to be opened again.
    #[error("broken")]
    Broken,
    #[error("out of memory")]
    Memory,
}

impl From<AllocError> for ActError {
    ghost use Rattle.std.specs.Prelude.{◌≡◌};
    ghost use Rattle.slpf_actuator.specs.declared.error.ActError.TheVariants.{Memory};

    ghost from_gives = { λ _ e. e ≡ Memory };

    fn from(_refused: AllocError) -> ActError {
        ActError::Memory
    }
}

impl From<JournalError> for ActError {
    ghost use Rattle.std.specs.Prelude.{◌≡◌};
    ghost use Rattle.slpf_actuator.specs.Errors.{error_of};

    ghost from_gives = { λ refused e. e ≡ error_of refused };

    fn from(refused: JournalError) -> ActError {
        match refused {
            JournalError::Disk => ActError::Disk,
            JournalError::Damaged { place } => ActError::Damaged { place },
            JournalError::Full { length } => ActError::Full { length },
            JournalError::Broken => ActError::Broken,
            JournalError::Memory => ActError::Memory,
        }
    }
}
