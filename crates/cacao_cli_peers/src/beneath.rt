// The site beneath a wire.
ghost use Rattle.std.specs.Prelude.{◌≡◌};
ghost use Rattle.oc2_wire.specs.ReplyWires.{sound-retell};
ghost use Rattle.cacao_cli_peers.specs.SitesBeneath.{LeavesLink, beneath};

use cacao_site::{Disk, Failed, Parcel, Site};
use std::alloc::AllocError;
use std::snapshot::Snapshot;

/// A site that is lent to a wire without its link: what is put is lost, and nothing is taken.
#[derive(Drop)]
pub(crate) struct Beneath<'a, S: Site> {
    site: &'a mut S,
    /// The site when it was lent.
    lent: Snapshot<S>,
    /// How many parcels were put since.
    lost: u64,
    ghost leaves: { LeavesLink (S.view lent.value) (S.view site.now) },
}

impl<'a, S: Site> Beneath<'a, S> {
    pub(crate) fn new(site: &'a mut S) -> Beneath<'a, S>
        ensures same_reference { result.site.ghost_name ≡ site.entry.ghost_name }
        ensures site { result.site.now ≡ site.old }
        ensures lent { result.lent.value ≡ site.old }
    {
        let lent = Snapshot::of(&*site);
        Beneath {
            site,
            lent,
            lost: 0,
        }
    }

    /// The site. (What is lent stays known to who holds the loan.)
    pub(crate) fn into_site(self) -> &'a mut S
        ensures same_reference { result.ghost_name ≡ self.entry.site.ghost_name }
        ensures site { result.now ≡ self.entry.site.now }
    {
        let Beneath {
            site,
            lent: _,
            lost: _,
        } = self;
        site
    }
}

impl<'a, S: Site> Disk for Beneath<'a, S> {
    ghost view = { λ s. beneath s.site.ghost_name (S.view s.lent.value) s.lost (S.view s.site.now) };

    ghost sound = { λ s. sound-retell _ s.lost (S.view s.site.now) (S.sound s.site.now) };

    fn length(&mut self, file: u8) -> Result<u64, Failed> {
        self.site.length(file)
    }

    fn read(&mut self, file: u8, at: u64, into: &mut [u8]) -> Result<u32, Failed> {
        self.site.read(file, at, into)
    }

    fn write(&mut self, file: u8, at: u64, bytes: &[u8]) -> Result<(), Failed> {
        self.site.write(file, at, bytes)
    }

    fn sync(&mut self, file: u8) -> Result<(), Failed> {
        self.site.sync(file)
    }
}

impl<'a, S: Site> Site for Beneath<'a, S> {
    fn put(&mut self, _parcel: Parcel) {
        self.lost = self.lost.saturating_add(1);
    }

    fn take(&mut self) -> Result<Option<Parcel>, AllocError> {
        Err(AllocError)
    }

    fn say(&mut self, bytes: &[u8]) -> Result<(), Failed> {
        self.site.say(bytes)
    }

    fn reach(&mut self, moment: u64) -> u64 {
        self.site.reach(moment)
    }
}
