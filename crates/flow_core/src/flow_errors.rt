// Why a flow took no record.
ghost use Rattle.std.specs.Prelude.{◌≡◌};
ghost use Rattle.flow_core.specs.declared.flow_errors.FlowError.TheVariants as flow_error;

use std::alloc::{AllocError, AllocFailed};
use thiserror::Error;

/// A quantity that has a limit.
#[derive(Clone, Copy, Debug, Drop, PartialEq, Eq)]
pub enum LimitKind {
    /// The bytes of a journal, at most 67,108,864.
    Journal,
    /// The tasks of a run, at most 1,000,000.
    Tasks,
    /// A moment in milliseconds, at most 9,000,000,000,000,000.
    Moment,
    /// The bytes of a filled command, at most 1,048,576.
    Command,
}

/// Why a flow took no record.
#[derive(Clone, Copy, Debug, Drop, Error, PartialEq, Eq)]
pub enum FlowError {
    #[error("the record may not come next")]
    NotEnabled,
    #[error("a limit is passed")]
    Limit { what: LimitKind },
    #[error("out of memory")]
    Memory,
}

impl From<AllocError> for FlowError {
    ghost from_gives = { λ _ e. e ≡ flow_error.Memory };

    fn from(_: AllocError) -> FlowError {
        FlowError::Memory
    }
}

impl<T: Drop> From<AllocFailed<T>> for FlowError {
    ghost from_gives = { λ _ e. e ≡ flow_error.Memory };

    fn from(_: AllocFailed<T>) -> FlowError {
        FlowError::Memory
    }
}
