// Why a rehearsal has no summary.
ghost use Rattle.std.specs.Prelude.{◌≡◌};
ghost use Rattle.cacao_cli_rehearsal.specs.declared.error.RehearsalError.TheVariants as rehearsal_error;

use cacao_check::Break;
use flow_world::{Close, WorldError};
use std::alloc::AllocError;

/// Why nothing can be said of a rehearsal.
#[derive(Drop)]
pub enum RehearsalError {
    /// The text of the playbook has more than 1,048,576 bytes.
    TooLong,
    /// The first break of a rule of playbooks (K1 to K25, in the mode of runs).
    Broken(Break),
    /// The session closed so; the run has not ended well.
    Closed(Close),
    /// The session refused.
    Refused(WorldError),
    /// Memory was wanted, or the site is used up: a call of it failed, a parcel on it was lost, doubled or held back, or 1,000,000
    /// takes were made.
    Memory,
}

impl From<AllocError> for RehearsalError {
    ghost from_gives = { λ _ e. e ≡ rehearsal_error.Memory };

    fn from(_: AllocError) -> RehearsalError {
        RehearsalError::Memory
    }
}
