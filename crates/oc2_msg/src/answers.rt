// What a response answers.
use cacao_json::Text;
use std::alloc::{AllocError, AllocFailed};
use thiserror::Error;

/// What is read from a response.
#[derive(Drop)]
pub struct Answer {
    /// A status code: 102, 200, 400, 401, 403, 404, 500, 501 or 503.
    pub status: u16,
    /// The number of the rule that was added, 0 for none.
    pub rule: u32,
    /// At most 4,096 bytes.
    pub text: Text,
}

/// Why `read_response` gives no answer.
#[derive(Clone, Copy, Debug, Drop, Error, PartialEq, Eq)]
pub enum ResponseError {
    /// The bytes are no response.
    #[error("malformed response")]
    Malformed,
    /// There was no memory for the answer.
    #[error("out of memory")]
    Memory,
}

impl<T: Drop> From<AllocFailed<T>> for ResponseError {
    ghost use Rattle.std.specs.Prelude.{◌≡◌};
    ghost use Rattle.oc2_msg.specs.declared.answers.ResponseError.TheVariants.{Memory};

    ghost from_gives = { λ _ e. e ≡ Memory };

    fn from(_refused: AllocFailed<T>) -> ResponseError {
        ResponseError::Memory
    }
}

impl From<AllocError> for ResponseError {
    ghost use Rattle.std.specs.Prelude.{◌≡◌};
    ghost use Rattle.oc2_msg.specs.declared.answers.ResponseError.TheVariants.{Memory};

    ghost from_gives = { λ _ e. e ≡ Memory };

    fn from(_refused: AllocError) -> ResponseError {
        ResponseError::Memory
    }
}
