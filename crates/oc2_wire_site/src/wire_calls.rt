// The link, the lines and the clock of a site over a link.
ghost use Rattle.std.specs.Prelude.{◌≡◌, ◌≤◌, ◌<◌, vec_len, vec_capacity, if◌then◌else◌, IfOk, OnOk, OnErr, MatchOption};
ghost use Rattle.cacao_site.specs.Counts.{last_count, next_count};
ghost use Rattle.cacao_site.specs.LinkCalls.{Gains};
ghost use Rattle.cacao_site.specs.SayCalls.{SaysOnly};
ghost use Rattle.cacao_site.specs.SiteCalls.{Puts, Reaches, TakesNone, TakesOnly, TakesSome};
ghost use Rattle.oc2_wire_site.specs.WireCalls.{KeepsWire, PutsLine, TakesLine};
ghost use Rattle.oc2_wire_site.specs.LineLinks.{taken_of};
ghost use Rattle.oc2_wire_site.specs.WireOf.{wire_of};

use crate::entries::{Put, Taken};
use crate::link_state::LinkState;
use crate::wire_site::WireSite;
use cacao_site::{Disk, Failed, Parcel, Site};
use oc2_wire_link::Link;
use std::alloc::AllocError;
use std::snapshot::Snapshot;

// The count of mishaps after a put that went out or did not.
fn mishaps_after(mishaps: u64, went: bool) -> u64
    ensures counted { result ≡ (if went then mishaps else next_count mishaps) }
    ensures fits { mishaps ≤ last_count }
{
    if went {
        mishaps
    } else {
        mishaps.saturating_add(1)
    }
}

// Makes room for one entry more of each.
fn make_room<A, B>(taken: &mut Vec<A>, empty: &mut Vec<B>) -> Result<(), AllocError>
    ensures taken { taken.new.items ≡ taken.old.items }
    ensures empty { empty.new.items ≡ empty.old.items }
    ensures taken_room { OnOk result (vec_len taken.new < vec_capacity taken.new) }
    ensures empty_room { OnOk result (vec_len empty.new < vec_capacity empty.new) }
{
    taken.reserve(1)?;
    empty.reserve(1)?;
    Ok(())
}

impl<S: Site, K: Link> Site for WireSite<S, K> {
    /// Sends the line of a parcel that a line can carry. What doesn't go out is counted as a mishap.
    fn put(&mut self, parcel: Parcel)
        ensures puts { Puts parcel (wire_of S.view K.view self.old).site (wire_of S.view K.view self.new).site }
        ensures line { PutsLine parcel (wire_of S.view K.view self.old) (wire_of S.view K.view self.new) }
    {
        let at = Snapshot::of(&self.site);
        let went = self
            .lines
            .put(self.alloc, &mut self.puts, Put { at, parcel });
        self.mishaps = mishaps_after(self.mishaps, went);
    }

    /// Takes the parcel of a line. The end that asks reads one line, if fewer were read than parcels were put. The end that
    /// answers reads on up to a command, and answers each line that carries none.
    fn take(&mut self) -> Result<Option<Parcel>, AllocError>
        ensures only { TakesOnly (wire_of S.view K.view self.old).site (wire_of S.view K.view self.new).site }
        ensures taken { IfOk result (λ taken. MatchOption taken
            (TakesNone (wire_of S.view K.view self.old).site (wire_of S.view K.view self.new).site)
            (λ parcel. TakesSome parcel (wire_of S.view K.view self.old).site (wire_of S.view K.view self.new).site)) }
        ensures memory { OnErr result
            ((wire_of S.view K.view self.new).site.link ≡ (wire_of S.view K.view self.old).site.link) }
        ensures line { TakesLine (taken_of result) (wire_of S.view K.view self.old) (wire_of S.view K.view self.new) }
        ensures want { OnErr result ((wire_of S.view K.view self.old).lines.state ≡ LinkState.Whole
            → (wire_of S.view K.view self.new).lines.state ≡ LinkState.NoMemory) }
        ensures wanted { OnOk result ((wire_of S.view K.view self.new).lines.state ≡ LinkState.NoMemory
            → (wire_of S.view K.view self.old).lines.state ≡ LinkState.NoMemory) }
    {
        if make_room(&mut self.taken, &mut self.empty).is_err() {
            self.lines.want_memory();
            return Err(AllocError);
        }
        let owed = self.is_owed();
        match self.lines.take(self.alloc, self.asking, owed) {
            Ok(Some(parcel)) => {
                let at = Snapshot::of(&self.site);
                self.taken.push_reserved(Taken {
                    at,
                    parcel: Snapshot::of(&parcel),
                });
                Ok(Some(parcel))
            }
            Ok(None) => {
                self.empty.push_reserved(Snapshot::of(&self.site));
                Ok(None)
            }
            Err(error) => Err(error),
        }
    }

    fn say(&mut self, bytes: &[u8]) -> Result<(), Failed>
        ensures only { SaysOnly (wire_of S.view K.view self.old).site (wire_of S.view K.view self.new).site }
        ensures said { OnOk result (Gains (wire_of S.view K.view self.old).site.link.said
            ((wire_of S.view K.view self.new).site.disk.beat, bytes.now) (wire_of S.view K.view self.new).site.link.said) }
        ensures said_before { OnErr result
            ((wire_of S.view K.view self.new).site.link.said ≡ (wire_of S.view K.view self.old).site.link.said) }
        ensures unsaid { OnOk result
            ((wire_of S.view K.view self.new).site.counts.unsaid ≡ (wire_of S.view K.view self.old).site.counts.unsaid) }
        ensures cause { OnErr result ((wire_of S.view K.view self.new).site.counts.unsaid
            ≡ next_count (wire_of S.view K.view self.old).site.counts.unsaid) }
        ensures wire { KeepsWire (wire_of S.view K.view self.old) (wire_of S.view K.view self.new) }
    {
        self.site.say(bytes)
    }

    fn reach(&mut self, moment: u64) -> u64
        ensures reaches { Reaches moment result
            (wire_of S.view K.view self.old).site (wire_of S.view K.view self.new).site }
        ensures wire { KeepsWire (wire_of S.view K.view self.old) (wire_of S.view K.view self.new) }
    {
        self.site.reach(moment)
    }
}
