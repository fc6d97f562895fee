// Parcels that are put.
ghost use Rattle.std.specs.Prelude.{◌≡◌};
ghost use Rattle.oc2_wire_lines.specs.Lines.{IsCarried};
ghost use Rattle.oc2_wire_site.specs.PutEnds.{PutEnd};
ghost use Rattle.oc2_wire_site.specs.LinesOf.{lines_of};

use crate::entries::Put;
use crate::line_link::LineLink;
use crate::link_state::LinkState;
use oc2_wire_lines::{is_carried, write_line};
use oc2_wire_link::Link;
use std::alloc::Global;

impl<K: Link> LineLink<K> {
    // Keeps a parcel and sends its line, over a link that is whole. It answers whether it went out.
    fn put_carried<S>(&mut self, alloc: Global, puts: &mut Vec<Put<S>>, put: Put<S>) -> bool
        requires whole { self.old.state ≡ LinkState.Whole }
        requires carried { IsCarried put.parcel }
        ensures { PutEnd put puts.old.items puts.new.items (lines_of K.view self.old) (lines_of K.view self.new) result }
    {
        let Ok(line) = write_line(alloc, &put.parcel) else {
            self.state = LinkState::NoMemory;
            return false;
        };
        match puts.push(put) {
            Ok(()) => match self.send(line.as_slice()) {
                Ok(()) => true,
                Err(_) => false,
            },
            Err(_) => {
                self.state = LinkState::NoMemory;
                false
            }
        }
    }

    /// Keeps a parcel among the puts and sends its line, if a line can carry it. It answers whether the line went out; where it
    /// did not, the parcel is lost.
    pub fn put<S>(&mut self, alloc: Global, puts: &mut Vec<Put<S>>, put: Put<S>) -> bool
        ensures { PutEnd put puts.old.items puts.new.items (lines_of K.view self.old) (lines_of K.view self.new) result }
    {
        if !is_carried(&put.parcel) {
            return false;
        }
        if self.is_whole() {
            return self.put_carried(alloc, puts, put);
        }
        let _ = puts.push(put);
        false
    }
}
