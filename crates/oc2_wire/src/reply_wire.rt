// A wire that is lent to a filter.
ghost use Rattle.std.specs.Prelude.{◌≡◌};
ghost use Rattle.oc2_wire_site.specs.WireOf.{wire_of};
ghost use Rattle.oc2_wire_site.specs.Entries.{empty_by, puts_by, taken_by};
ghost use Rattle.oc2_wire_site.specs.LinesOf.{mark_of};
ghost use Rattle.oc2_wire_site.specs.WireSound.{wire-sound};
ghost use Rattle.oc2_wire.specs.ReplyWires.{KeepsLink, lent_wire, sound-retell};

use cacao_site::{Disk, Failed, Parcel, Site};
use oc2_wire_link::Link;
use oc2_wire_site::{LinkState, WireSite};
use std::alloc::AllocError;
use std::snapshot::Snapshot;

/// A wire while a filter answers on it. It puts replies, and takes nothing, so that behind the call the wire has read no line.
#[derive(Drop)]
pub(crate) struct ReplyWire<'a, S: Site, K: Link> {
    wire: &'a mut WireSite<S, K>,
    /// The wire when it was lent.
    lent: Snapshot<WireSite<S, K>>,
    /// How many parcels were put since. It is told as the count of mishaps, so that of each call it is known whether it put one.
    put: u64,
    ghost keeps: { KeepsLink (wire_of S.view K.view lent.value) (wire_of S.view K.view wire.now) put },
}

impl<'a, S: Site, K: Link> ReplyWire<'a, S, K> {
    pub(crate) fn new(wire: &'a mut WireSite<S, K>) -> ReplyWire<'a, S, K>
        requires whole { (wire_of S.view K.view wire.old).lines.state ≡ LinkState.Whole }
        ensures same_reference { result.wire.ghost_name ≡ wire.entry.ghost_name }
        ensures wire { result.wire.now ≡ wire.old }
        ensures lent { result.lent.value ≡ wire.old }
        ensures none { result.put ≡ 0 }
    {
        let lent = Snapshot::of(&*wire);
        ReplyWire { wire, lent, put: 0 }
    }

    /// The wire. (What is lent stays known to who holds the loan.)
    pub(crate) fn into_wire(self) -> &'a mut WireSite<S, K>
        ensures same_reference { result.ghost_name ≡ self.entry.wire.ghost_name }
        ensures wire { result.now ≡ self.entry.wire.now }
    {
        let ReplyWire {
            wire,
            lent: _,
            put: _,
        } = self;
        wire
    }
}

impl<'a, S: Site, K: Link> Disk for ReplyWire<'a, S, K> {
    ghost view = { λ w. lent_wire w.wire.ghost_name (wire_of S.view K.view w.lent.value) w.put (wire_of S.view K.view w.wire.now) };

    ghost sound = { λ w. sound-retell _ w.put (wire_of S.view K.view w.wire.now).site (wire-sound w.wire.now.asking
        (mark_of K.view w.wire.now.mark) (S.view w.wire.now.site)
        (puts_by S.view w.wire.now.puts.items) (taken_by S.view w.wire.now.taken.items) (empty_by S.view w.wire.now.empty.items)
        w.wire.now.mishaps (S.sound w.wire.now.site) w.wire.now.puts_in_time w.wire.now.taken_in_time) };

    fn length(&mut self, file: u8) -> Result<u64, Failed> {
        self.wire.length(file)
    }

    fn read(&mut self, file: u8, at: u64, into: &mut [u8]) -> Result<u32, Failed> {
        self.wire.read(file, at, into)
    }

    fn write(&mut self, file: u8, at: u64, bytes: &[u8]) -> Result<(), Failed> {
        self.wire.write(file, at, bytes)
    }

    fn sync(&mut self, file: u8) -> Result<(), Failed> {
        self.wire.sync(file)
    }
}

impl<'a, S: Site, K: Link> Site for ReplyWire<'a, S, K> {
    fn put(&mut self, parcel: Parcel) {
        self.wire.put(parcel);
        self.put = self.put.saturating_add(1);
    }

    fn take(&mut self) -> Result<Option<Parcel>, AllocError> {
        Err(AllocError)
    }

    fn say(&mut self, bytes: &[u8]) -> Result<(), Failed> {
        self.wire.say(bytes)
    }

    fn reach(&mut self, moment: u64) -> u64 {
        self.wire.reach(moment)
    }
}
