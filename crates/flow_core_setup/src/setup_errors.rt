// Why texts of playbooks and bindings give no setup.
ghost use Rattle.std.specs.Prelude.{◌≡◌};
ghost use Rattle.flow_core_setup.specs.declared.setup_errors.SetupError.TheVariants as setup_error;

use cacao_check::Break;
use cacao_json::JsonError;
use std::alloc::{AllocError, AllocFailed};

/// Why texts of playbooks and bindings give no setup. The causes are tested in this order.
#[derive(Drop)]
pub enum SetupError {
    /// The first text that has no tree, and why it has none. Texts count from 0, and that of the bindings has the number of
    /// playbooks.
    Unreadable { file: u32, error: JsonError },
    /// The first break of a rule of playbooks (K1 to K25, in the mode of runs).
    Broken(Break),
    /// The least rule of bindings that is broken: 1 to 3 for B1 to B3.
    Bind { rule: u8 },
    /// There was no memory for the setup.
    Memory,
}

impl From<AllocError> for SetupError {
    ghost from_gives = { λ _ e. e ≡ setup_error.Memory };

    fn from(_: AllocError) -> SetupError {
        SetupError::Memory
    }
}

impl<T: Drop> From<AllocFailed<T>> for SetupError {
    ghost from_gives = { λ _ e. e ≡ setup_error.Memory };

    fn from(_: AllocFailed<T>) -> SetupError {
        SetupError::Memory
    }
}
