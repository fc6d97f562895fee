// Playbooks that are read.
ghost use Rattle.std.specs.Prelude.{IfOk};
ghost use Rattle.flow_core.specs.Setups.{IsReadable};

use cacao_site::Bytes;
use flow_core::{Setup, SetupError};
use std::alloc::{AllocError, Global};

/// The bytes of a text; none where it is too long to be read.
fn bytes_of(alloc: Global, text: &str) -> Result<Bytes, AllocError>
    ensures { IfOk result (λ bytes. IsReadable bytes) }
{
    if text.len() > 1_048_576 {
        return Bytes::from_slice(alloc, b"");
    }
    Bytes::from_slice(alloc, text.as_bytes())
}

/// The setup of a playbook, without bindings.
pub(crate) fn setup(alloc: Global, text: &str) -> Result<Setup, SetupError> {
    let bind = Bytes::from_slice(alloc, b"")?;
    let texts = [bytes_of(alloc, text)?];
    Setup::read(alloc, &texts, &bind)
}
