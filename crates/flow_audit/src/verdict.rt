// What an audit finds.
use std::alloc::{AllocError, AllocFailed};
use thiserror::Error;

/// Whether the files agree.
#[derive(Clone, Copy, Drop, PartialEq, Eq)]
pub enum Verdict17 {
    /// They do, and hold so many records and acts.
    Yes { records: u32, acts: u32 },
    /// They do not: the file, 0 to 16, and the place in it, in bytes, of the damage or of the gate of the entry that first
    /// breaks the agreement.
    No { file: u8, place: u64 },
}

/// Why there is no verdict.
#[derive(Clone, Copy, Debug, Drop, Error, PartialEq, Eq)]
pub enum AuditError {
    /// The record of file 0 with its gate at this place, in bytes, would make more than 1,000,000 tasks.
    #[error("more than 1,000,000 tasks at {place}")]
    Tasks { place: u64 },
    #[error("out of memory")]
    Memory,
}

/// Why an audit went no further.
#[derive(Clone, Copy, Drop)]
pub(crate) enum Stop {
    No { file: u8, place: u64 },
    Tasks { place: u64 },
    Memory,
}

impl From<AllocError> for Stop {
    ghost use Rattle.std.specs.Prelude.{◌≡◌};
    ghost use Rattle.flow_audit.specs.declared.verdict.Stop.TheVariants.{Memory};

    ghost from_gives = { λ _ e. e ≡ Memory };

    fn from(_refused: AllocError) -> Stop {
        Stop::Memory
    }
}

impl<T: Drop> From<AllocFailed<T>> for Stop {
    ghost use Rattle.std.specs.Prelude.{◌≡◌};
    ghost use Rattle.flow_audit.specs.declared.verdict.Stop.TheVariants.{Memory};

    ghost from_gives = { λ _ e. e ≡ Memory };

    fn from(_refused: AllocFailed<T>) -> Stop {
        Stop::Memory
    }
}
