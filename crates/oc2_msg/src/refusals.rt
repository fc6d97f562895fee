// Why a command is refused.
use crate::reasons::Reason;
use std::alloc::{AllocError, AllocFailed};
use thiserror::Error;

/// The status and the text with which a command is refused (OpenC2 Language 1.0, section 3.2.1).
#[derive(Clone, Copy, Debug, PartialEq, Eq)]
pub struct Refusal {
    /// 400 or 501.
    pub status: u16,
    pub text: Reason,
}

/// Why `read_command` gives no command.
#[derive(Clone, Copy, Debug, Drop, Error, PartialEq, Eq)]
pub enum CommandError {
    /// The command is refused.
    #[error("refused")]
    Refused(Refusal),
    /// There was no memory for the command.
    #[error("out of memory")]
    Memory,
}

impl<T: Drop> From<AllocFailed<T>> for CommandError {
    ghost use Rattle.std.specs.Prelude.{◌≡◌};
    ghost use Rattle.oc2_msg.specs.declared.refusals.CommandError.TheVariants.{Memory};

    ghost from_gives = { λ _ e. e ≡ Memory };

    fn from(_refused: AllocFailed<T>) -> CommandError {
        CommandError::Memory
    }
}

impl From<AllocError> for CommandError {
    ghost use Rattle.std.specs.Prelude.{◌≡◌};
    ghost use Rattle.oc2_msg.specs.declared.refusals.CommandError.TheVariants.{Memory};

    ghost from_gives = { λ _ e. e ≡ Memory };

    fn from(_refused: AllocError) -> CommandError {
        CommandError::Memory
    }
}
