// The site in memory on which a rehearsal runs.
ghost use Rattle.cacao_site_memory.specs.MemorySite.{plan_of, view_of};
ghost use Rattle.cacao_site_memory.specs.MemorySound.{site-sound};
ghost use Rattle.cacao_cli_rehearsal.specs.Plans.{GoesOn};

use cacao_site::{Disk, Failed, Parcel, Site};
use cacao_site_memory::MemorySite;
use std::alloc::AllocError;

/// How many takes use the site up.
const MOST_TAKES: u32 = 1_000_000;

/// A site in memory with room for 67,108,864 bytes and 131,072 device calls, which notes whether it is used up: whether a call of
/// it failed, and how often a parcel was asked of it.
#[derive(Drop)]
pub struct RehearsalSite {
    pub(crate) site: MemorySite,
    /// Whether a call of the disk failed, or a line could not be said.
    pub(crate) has_failed: bool,
    /// The takes, counted up to 1,000,000.
    pub(crate) takes: u32,
    pub ghost goes_on: { GoesOn (plan_of site) has_failed takes (view_of site) },
}

impl RehearsalSite {
    ghost use Rattle.std.specs.Prelude.{IsTrue};
    ghost use Rattle.cacao_cli_rehearsal.specs.Plans.{GoesByPlan};
    ghost use Rattle.cacao_cli_rehearsal.specs.Sites.{inside};

    /// Whether it is not used up: no call of it failed, no parcel was lost, doubled or held back, and fewer than 1,000,000 takes
    /// were made.
    pub(crate) fn is_sound(&self) -> bool
        ensures { IsTrue result → GoesByPlan (inside self.now) }
    {
        !self.has_failed && self.takes < MOST_TAKES && self.site.mishaps() == 0
    }
}

impl Disk for RehearsalSite {
    ghost view = { λ s. view_of s.site };

    ghost sound = { λ s. site-sound s.site };

    fn length(&mut self, file: u8) -> Result<u64, Failed> {
        let result = self.site.length(file);
        self.has_failed = self.has_failed || result.is_err();
        result
    }

    fn read(&mut self, file: u8, at: u64, into: &mut [u8]) -> Result<u32, Failed> {
        let result = self.site.read(file, at, into);
        self.has_failed = self.has_failed || result.is_err();
        result
    }

    fn write(&mut self, file: u8, at: u64, bytes: &[u8]) -> Result<(), Failed> {
        let result = self.site.write(file, at, bytes);
        self.has_failed = self.has_failed || result.is_err();
        result
    }

    fn sync(&mut self, file: u8) -> Result<(), Failed> {
        let result = self.site.sync(file);
        self.has_failed = self.has_failed || result.is_err();
        result
    }
}

impl Site for RehearsalSite {
    fn put(&mut self, parcel: Parcel) {
        self.site.put(parcel)
    }

    fn take(&mut self) -> Result<Option<Parcel>, AllocError> {
        self.takes = (self.takes + 1).min(MOST_TAKES);
        self.site.take()
    }

    fn say(&mut self, bytes: &[u8]) -> Result<(), Failed> {
        let result = self.site.say(bytes);
        self.has_failed = self.has_failed || result.is_err();
        result
    }

    fn reach(&mut self, moment: u64) -> u64 {
        self.site.reach(moment)
    }
}
