// Why a tree is no playbook.
ghost use Rattle.std.specs.Prelude.{◌≡◌};
ghost use Rattle.cacao_book_shape.specs.declared.refusals.BookError.TheVariants as book_error;

use cacao_json::Text;
use std::alloc::{AllocError, AllocFailed};
use thiserror::Error;

/// Why a tree is no playbook.
#[derive(Debug, Drop, Error)]
pub enum BookError {
    /// The tree breaks a rule of shape, `rule` being its number from 1 to 12, and this is the first break: of the
    /// book where `step` is None, else of the step with this key.
    #[error("rule K{rule} is broken")]
    Shape { step: Option<Text>, rule: u8 },
    /// There was no memory.
    #[error("out of memory")]
    Memory,
}

impl From<AllocError> for BookError {
    ghost from_gives = { λ _ e. e ≡ book_error.Memory };

    fn from(_refused: AllocError) -> BookError {
        BookError::Memory
    }
}

impl<T: Drop> From<AllocFailed<T>> for BookError {
    ghost from_gives = { λ _ e. e ≡ book_error.Memory };

    fn from(_refused: AllocFailed<T>) -> BookError {
        BookError::Memory
    }
}
