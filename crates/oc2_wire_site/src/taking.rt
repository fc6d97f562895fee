// Parcels that are taken.
ghost use Rattle.std.specs.Prelude.{◌≡◌, ◌≢◌, Err, OnOk, OnErr};
ghost use Rattle.oc2_wire_site.specs.LineLinks.{TakesBy, taken_of};
ghost use Rattle.oc2_wire_site.specs.LinesOf.{lines_of};

use crate::line_link::LineLink;
use crate::link_state::LinkState;
use cacao_site::Parcel;
use oc2_wire_link::Link;
use std::alloc::{AllocError, Global};

// What a take answers after this was read.
fn answer(read: Result<Option<Parcel>, LinkState>) -> Result<Option<Parcel>, AllocError>
    ensures taken { taken_of result ≡ taken_of read }
    ensures want { OnErr result (read ≡ Err LinkState.NoMemory) }
    ensures wanted { OnOk result (read ≢ Err LinkState.NoMemory) }
{
    match read {
        Ok(taken) => Ok(taken),
        Err(LinkState::NoMemory) => Err(AllocError),
        Err(_) => Ok(None),
    }
}

impl<K: Link> LineLink<K> {
    /// Takes the parcel of the next line, at the end that asks if a line is owed to it, and at the end that answers past lines
    /// that carry no command. None where the link is broken, or breaks.
    pub fn take(
        &mut self,
        alloc: Global,
        asking: bool,
        owed: bool,
    ) -> Result<Option<Parcel>, AllocError>
        ensures takes { TakesBy asking owed (taken_of result) (lines_of K.view self.old) (lines_of K.view self.new) }
        ensures want { OnErr result (self.new.state ≡ LinkState.NoMemory) }
        ensures wanted { OnOk result (self.new.state ≡ LinkState.NoMemory → self.old.state ≡ LinkState.NoMemory) }
    {
        if !self.is_whole() {
            return Ok(None);
        }
        if !asking {
            let read = self.read_command(alloc);
            return answer(read);
        }
        if !owed {
            return Ok(None);
        }
        let read = self.read(alloc, true);
        answer(read)
    }
}
