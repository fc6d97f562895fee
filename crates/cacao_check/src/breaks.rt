// Broken rules.
ghost use Rattle.std.specs.Prelude.{◌≡◌};
ghost use Rattle.cacao_check.specs.declared.breaks.CheckError.TheVariants as check_error;

use cacao_json::Text;
use std::alloc::{AllocError, AllocFailed};

/// What the books are checked for: to be read, or to be run.
#[derive(Clone, Copy, PartialEq, Eq)]
pub enum Mode {
    Read,
    Run,
}

/// A broken rule of the book with this number, counted from 0: of the book itself where `step` is None, else of the
/// step with this key. `rule` is 1 to 25 for K1 to K25.
#[derive(Drop)]
pub struct Break {
    pub book: u32,
    pub step: Option<Text>,
    pub rule: u8,
}

/// Why books are refused.
#[derive(Drop)]
pub enum CheckError {
    Broken(Break),
    Memory,
}

impl From<AllocError> for CheckError {
    ghost from_gives = { λ _ e. e ≡ check_error.Memory };

    fn from(_: AllocError) -> CheckError {
        CheckError::Memory
    }
}

impl<T: Drop> From<AllocFailed<T>> for CheckError {
    ghost from_gives = { λ _ e. e ≡ check_error.Memory };

    fn from(_: AllocFailed<T>) -> CheckError {
        CheckError::Memory
    }
}
