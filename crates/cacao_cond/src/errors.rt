// Why a condition was not read.
ghost use Rattle.std.specs.Prelude.{◌≡◌};
ghost use Rattle.cacao_cond.specs.declared.errors.CondError.TheVariants.{Memory};

use std::alloc::{AllocError, AllocFailed};
use thiserror::Error;

/// Why a condition was not read.
#[derive(Clone, Copy, Debug, Drop, Error, PartialEq, Eq)]
pub enum CondError {
    #[error("not a condition")]
    Grammar,
    #[error("out of memory")]
    Memory,
}

impl From<AllocError> for CondError {
    ghost from_gives = { λ _ e. e ≡ Memory };

    fn from(_: AllocError) -> CondError {
        CondError::Memory
    }
}

impl<T: Drop> From<AllocFailed<T>> for CondError {
    ghost from_gives = { λ _ e. e ≡ Memory };

    fn from(_: AllocFailed<T>) -> CondError {
        CondError::Memory
    }
}
