// Why an engine refuses.
ghost use Rattle.std.specs.Prelude.{◌≡◌};

use flow_core::LimitKind;
use run_journal::JournalError;
use std::alloc::AllocError;
use thiserror::Error;

/// Why an engine was not opened, or did not go on.
///
/// After `Disk` the value answers `Broken` until the file is opened again. After any other refusal it is as it was before.
#[derive(Clone, Copy, Debug, Drop, Error, PartialEq, Eq)]
pub enum EngineError {
    /// The disk failed.
    #[error("the disk failed")]
    Disk,
    /// The bytes of the file stand for no list, or the entry with its gate at this place, in bytes, may not come next in a run.
    #[error("damaged at {place}")]
    Damaged { place: u64 },
    /// The file holds the run with the first number, and the other one was asked for.
    #[error("run {held} in place of {asked}")]
    OtherRun { held: u64, asked: u64 },
    /// The file holds a run of other playbooks: the first that differs, or the number of playbooks where only the bindings do.
    #[error("another playbook {index}")]
    OtherBook { index: u32 },
    /// A limit would be passed.
    #[error("a limit is passed")]
    Limit { what: LimitKind },
    /// The disk had failed; the file is to be opened again.
    #[error("broken")]
    Broken,
    #[error("out of memory")]
    Memory,
}

impl From<AllocError> for EngineError {
    ghost use Rattle.std.specs.Prelude.{◌≡◌};
    ghost use Rattle.flow_engine_history.specs.declared.error.EngineError.TheVariants.{Memory};

    ghost from_gives = { λ _ e. e ≡ Memory };

    fn from(_refused: AllocError) -> EngineError {
        EngineError::Memory
    }
}

impl From<JournalError> for EngineError {
    ghost use Rattle.std.specs.Prelude.{◌≡◌};
    ghost use Rattle.flow_engine_history.specs.Errors.{error_of};

    ghost from_gives = { λ refused e. e ≡ error_of refused };

    fn from(refused: JournalError) -> EngineError {
        match refused {
            JournalError::Disk => EngineError::Disk,
            JournalError::Damaged { place } => EngineError::Damaged { place },
            JournalError::Full { .. } => EngineError::Limit {
                what: LimitKind::Journal,
            },
            JournalError::Broken => EngineError::Broken,
            JournalError::Memory => EngineError::Memory,
        }
    }
}
