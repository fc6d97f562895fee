// A site over a link.
ghost use Rattle.std.specs.Prelude.{◌≡◌, ◌≤◌, true, length};
ghost use Rattle.oc2_wire_site.specs.Entries.{AreInTime, puts_by, taken_by};
ghost use Rattle.oc2_wire_site.specs.LinesOf.{lines_of, mark_of};
ghost use Rattle.oc2_wire_site.specs.ReadLines.{HasReadSince, HasSentSince};

use crate::entries::{Put, Taken};
use crate::line_link::LineLink;
use crate::line_room::LineRoom;
use crate::link_state::LinkState;
use crate::mark::Mark;
use cacao_site::Site;
use oc2_wire_link::Link;
use std::alloc::Global;
use std::snapshot::Snapshot;

/// A site whose parcels go over a link, as lines. Its disk, its lines said and its clock are those of the site beneath.
///
/// It tells its own puts, parcels taken and empty takes, and its own count of mishaps: the parcels that did not go out. Which
/// parcels are pending it does not tell.
#[derive(Drop)]
pub struct WireSite<S: Site, K: Link> {
    pub(crate) alloc: Global,
    pub(crate) site: S,
    pub(crate) lines: LineLink<K>,
    /// Whether this end puts commands and takes replies.
    pub(crate) asking: bool,
    pub(crate) puts: Vec<Put<S>>,
    pub(crate) taken: Vec<Taken<S>>,
    /// The site at each take that found no parcel.
    pub(crate) empty: Vec<Snapshot<S>>,
    pub(crate) mishaps: u64,
    pub(crate) mark: Mark<K>,
    ghost puts_in_time: { AreInTime (S.view site).disk.beat (puts_by S.view puts.items) },
    ghost taken_in_time: { AreInTime (S.view site).disk.beat (taken_by S.view taken.items) },
    ghost taken_since: { mark.taken ≤ length taken.items },
    ghost put_since: { mark.puts ≤ length puts.items },
    ghost reads: { ∥ HasReadSince (mark_of K.view mark) asking (lines_of K.view lines) (taken_by S.view taken.items) ∥₁ },
    ghost sends: { asking ≡ true → ∥ HasSentSince (mark_of K.view mark) (lines_of K.view lines) (puts_by S.view puts.items) ∥₁ },
}

impl<S: Site + Drop, K: Link> WireSite<S, K> {
    ghost use Rattle.std.specs.Prelude.{false, IfOk, IfErr};
    ghost use Rattle.oc2_wire_site.specs.Wires.{new_wire};
    ghost use Rattle.oc2_wire_site.specs.WireOf.{link_of, site_of, wire_of};

    // One end of a wire over this link, with room for the lines that come.
    fn new(alloc: Global, room: LineRoom, site: S, link: K, asking: bool) -> WireSite<S, K>
        ensures view { wire_of S.view K.view result ≡ new_wire (S.view site) (K.view link) asking }
        ensures site { site_of result ≡ site }
        ensures link { link_of result ≡ link }
    {
        let lines = LineLink::new(room, link);
        let mark = Mark {
            lines: Snapshot::of(&lines),
            taken: 0,
            puts: 0,
        };
        WireSite {
            alloc,
            site,
            lines,
            asking,
            puts: Vec::new(alloc),
            taken: Vec::new(alloc),
            empty: Vec::new(alloc),
            mishaps: 0,
            mark,
        }
    }

    /// The end that puts commands and takes replies, with room that was taken before.
    pub fn asking_in(alloc: Global, room: LineRoom, site: S, link: K) -> WireSite<S, K>
        ensures view { wire_of S.view K.view result ≡ new_wire (S.view site) (K.view link) true }
        ensures site { site_of result ≡ site }
        ensures link { link_of result ≡ link }
    {
        WireSite::new(alloc, room, site, link, true)
    }

    /// The end that takes commands and puts replies, with room that was taken before.
    pub fn answering_in(alloc: Global, room: LineRoom, site: S, link: K) -> WireSite<S, K>
        ensures view { wire_of S.view K.view result ≡ new_wire (S.view site) (K.view link) false }
        ensures site { site_of result ≡ site }
        ensures link { link_of result ≡ link }
    {
        WireSite::new(alloc, room, site, link, false)
    }

    /// The end that puts commands and takes replies. Where memory is wanted, it gives the link back.
    pub fn asking(alloc: Global, site: S, link: K) -> Result<WireSite<S, K>, K>
        ensures view { IfOk result (λ wire. wire_of S.view K.view wire ≡ new_wire (S.view site) (K.view link) true) }
        ensures site { IfOk result (λ wire. site_of wire ≡ site) }
        ensures link { IfOk result (λ wire. link_of wire ≡ link) }
        ensures refused { IfErr result (λ back. back ≡ link) }
    {
        match LineRoom::new(alloc) {
            Ok(room) => Ok(WireSite::asking_in(alloc, room, site, link)),
            Err(_) => Err(link),
        }
    }

    /// The end that takes commands and puts replies. Where memory is wanted, it gives the link back.
    pub fn answering(alloc: Global, site: S, link: K) -> Result<WireSite<S, K>, K>
        ensures view { IfOk result (λ wire. wire_of S.view K.view wire ≡ new_wire (S.view site) (K.view link) false) }
        ensures site { IfOk result (λ wire. site_of wire ≡ site) }
        ensures link { IfOk result (λ wire. link_of wire ≡ link) }
        ensures refused { IfErr result (λ back. back ≡ link) }
    {
        match LineRoom::new(alloc) {
            Ok(room) => Ok(WireSite::answering_in(alloc, room, site, link)),
            Err(_) => Err(link),
        }
    }

    /// The link. The site is let go.
    pub fn into_link(self) -> K
        ensures { result ≡ link_of self }
    {
        let (_, link) = self.into_parts();
        link
    }

    /// The site beneath, and the link. (What is lent stays known to who holds the loan.)
    pub fn into_parts(self) -> (S, K)
        ensures site { result.0 ≡ site_of self }
        ensures link { result.1 ≡ link_of self }
    {
        let WireSite {
            alloc: _,
            site,
            lines,
            asking: _,
            puts: _,
            taken: _,
            empty: _,
            mishaps: _,
            mark: _,
        } = self;
        (site, lines.into_link())
    }
}

impl<S: Site, K: Link> WireSite<S, K> {
    ghost use Rattle.oc2_wire_site.specs.LineLinks.{IsLineLink};
    ghost use Rattle.oc2_wire_site.specs.ReadLines.{IsWire, Marks};
    ghost use Rattle.oc2_wire_site.specs.Wires.{is_owed};
    ghost use Rattle.oc2_wire_site.specs.WireOf.{wire_of};

    /// What broke the link first, with its cause.
    pub fn state(&self) -> LinkState
        ensures state { result ≡ (wire_of S.view K.view self.now).lines.state }
        ensures holds { IsLineLink (wire_of S.view K.view self.now).lines }
    {
        self.lines.state
    }

    /// How many lines were passed over since this was made.
    pub fn passed(&self) -> u64
        ensures { result ≡ (wire_of S.view K.view self.now).lines.passed }
    {
        self.lines.passed
    }

    /// Marks this moment, from which it is known what was read and sent. It changes nothing but the label of the disk, by which a wire is
    /// known again behind calls that see it as a site.
    pub fn mark(&mut self)
        ensures { Marks (wire_of S.view K.view self.old) (wire_of S.view K.view self.new) }
    {
        self.mark = Mark {
            lines: Snapshot::of(&self.lines),
            taken: self.taken.len(),
            puts: self.puts.len(),
        };
    }

    /// What was read and sent since this was made, or marked last. The function does nothing; its contract is what holds of each wire.
    pub fn law(&self)
        ensures { IsWire (wire_of S.view K.view self.now) }
    {}

    /// Whether fewer lines were read than parcels were put.
    pub(crate) fn is_owed(&self) -> bool
        ensures { result ≡ is_owed (wire_of S.view K.view self.now) }
    {
        let read = self.lines.passed.saturating_add(self.taken.len() as u64);
        read < self.puts.len() as u64
    }
}
