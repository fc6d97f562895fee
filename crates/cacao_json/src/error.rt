// Why a text has no tree.
use std::alloc::{AllocError, AllocFailed};
use thiserror::Error;

/// Why `read_tree` gives no tree.
#[derive(Clone, Copy, Debug, Drop, Error, PartialEq, Eq)]
pub enum JsonError {
    /// No JSON text (RFC 8259) in UTF-8 with at most 127 levels.
    #[error("not json")]
    NotJson,
    /// An object has a name more than once: the text has more colons outside strings than its tree has members.
    #[error("repeated name {colons} {members}")]
    RepeatedName { colons: u32, members: u32 },
    /// A number is no integer from -9,007,199,254,740,991 to 9,007,199,254,740,991. Numbers count from 0, depth
    /// first, members in byte order of their names.
    #[error("not whole {index}")]
    NotWhole { index: u32 },
    /// There was no memory for the tree.
    #[error("out of memory")]
    Memory,
}

impl<T: Drop> From<AllocFailed<T>> for JsonError {
    ghost use Rattle.std.specs.Prelude.{◌≡◌};
    ghost use Rattle.cacao_json.specs.declared.error.JsonError.TheVariants.{Memory};

    ghost from_gives = { λ _ e. e ≡ Memory };

    fn from(_refused: AllocFailed<T>) -> JsonError {
        JsonError::Memory
    }
}

impl From<AllocError> for JsonError {
    ghost use Rattle.std.specs.Prelude.{◌≡◌};
    ghost use Rattle.cacao_json.specs.declared.error.JsonError.TheVariants.{Memory};

    ghost from_gives = { λ _ e. e ≡ Memory };

    fn from(_refused: AllocError) -> JsonError {
        JsonError::Memory
    }
}
