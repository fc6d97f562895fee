// Setups of runs.
ghost use Rattle.std.specs.Prelude.{IfOk};
ghost use Rattle.flow_core.specs.Setups.{IsReadable};

use cacao_site::Bytes;
use flow_core::{Setup, SetupError};
use std::alloc::{AllocError, Global};

/// The bytes of a text; none where it is too long to be read.
fn bytes_of(alloc: Global, text: &str) -> Result<Bytes, AllocError>
    ensures { IfOk result (λ bytes. IsReadable bytes) }
{
    if text.len() > 1_048_576 {
        return Bytes::from_slice(alloc, b"");
    }
    Bytes::from_slice(alloc, text.as_bytes())
}

/// The setup of one playbook, with bindings; empty: none.
fn alone(alloc: Global, text: &str, bindings: &str) -> Result<Setup, SetupError> {
    let bind = bytes_of(alloc, bindings)?;
    let texts = [bytes_of(alloc, text)?];
    Setup::read(alloc, &texts, &bind)
}

/// The setup of a playbook and one that it calls, with bindings; empty: none.
fn calling(alloc: Global, text: &str, called: &str, bindings: &str) -> Result<Setup, SetupError> {
    let bind = bytes_of(alloc, bindings)?;
    let texts = [bytes_of(alloc, text)?, bytes_of(alloc, called)?];
    Setup::read(alloc, &texts, &bind)
}

/// The setup of a playbook, and one that it calls, with bindings; each of the last two may be empty, which stands for none.
pub(crate) fn setup(
    alloc: Global,
    text: &str,
    called: &str,
    bindings: &str,
) -> Result<Setup, SetupError> {
    if called.is_empty() {
        alone(alloc, text, bindings)
    } else {
        calling(alloc, text, called, bindings)
    }
}
