// Room for the lines that come over a link.
ghost use Rattle.std.specs.Prelude.{◌≡◌, []};

use std::alloc::{AllocError, Global};

// The bytes for which there is room at first.
const FIRST_ROOM: usize = 4_096;

/// Room for the lines that come over a link, taken before the link is there.
#[derive(Drop)]
pub struct LineRoom {
    bytes: Vec<u8>,
    ghost blank: { bytes.items ≡ [] },
}

impl LineRoom {
    /// Room for some bytes; it grows as lines want it.
    pub fn new(alloc: Global) -> Result<LineRoom, AllocError> {
        let bytes = Vec::with_capacity(alloc, FIRST_ROOM)?;
        Ok(LineRoom { bytes })
    }

    /// The room itself.
    pub(crate) fn into_bytes(self) -> Vec<u8>
        ensures { result.items ≡ [] }
    {
        let LineRoom { bytes } = self;
        bytes
    }
}
