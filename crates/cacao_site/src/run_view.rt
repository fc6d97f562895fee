// One run's view of a rack.
ghost use Rattle.std.specs.Prelude.{◌≡◌, ◌≤◌, ◌+◌, true, false};
ghost use Rattle.cacao_site.specs.RunViews.{rack_file, seen_from};
ghost use Rattle.cacao_site.specs.Seen.{sound-seen};

use crate::disk::Disk;
use crate::failed::Failed;
use crate::parcel::Parcel;
use crate::rack::Rack;
use crate::site::Site;
use std::alloc::AllocError;

/// A rack as a site: its file 0 is the journal of the run at this place, and all else is the rack's.
#[derive(Drop)]
pub struct RunView<'a, R> {
    rack: &'a mut R,
    place: u8,
    ghost in_range: { place ≤ 15 },
}

impl<'a, R: Rack> RunView<'a, R> {
    /// The rack as the run at this place sees it: for place 0 file 0 is the rack's, else run file `place`.
    ///
    /// It sees the rack that is lent here under the name of this loan, so that a caller knows it again behind calls
    /// that are generic over the site.
    pub fn new(rack: &'a mut R, place: u8) -> RunView<'a, R>
        requires { place ≤ 15 }
        ensures same_reference { result.rack.ghost_name ≡ rack.entry.ghost_name }
        ensures rack { result.rack.now ≡ rack.old }
        ensures place { result.place ≡ place }
        ensures view { ⟦<RunView<'a, R> as Disk>⟧.view result ≡ seen_from place rack.entry.ghost_name (R.view rack.old) }
    {
        RunView { rack, place }
    }

    /// Whether this file of the view is a run file of the rack; all others are the rack's of that number.
    fn is_own(&self, file: u8) -> bool
        requires { file ≤ 16 }
        ensures low { result ≡ true → 1 ≤ self.now.place }
        ensures own { result ≡ true → rack_file self.now.place file ≡ 16 + self.now.place }
        ensures other { result ≡ false → rack_file self.now.place file ≡ file }
    {
        file == 0 && self.place > 0
    }
}

impl<'a, R: Rack> Disk for RunView<'a, R> {
    ghost view = { λ v. seen_from v.place v.rack.ghost_name (R.view v.rack.now) };

    ghost sound = { λ v. sound-seen v.place v.rack.ghost_name (R.view v.rack.now) (R.sound v.rack.now) };

    fn length(&mut self, file: u8) -> Result<u64, Failed> {
        if self.is_own(file) {
            return self.rack.run_length(self.place);
        }
        self.rack.length(file)
    }

    fn read(&mut self, file: u8, at: u64, into: &mut [u8]) -> Result<u32, Failed> {
        if self.is_own(file) {
            return self.rack.run_read(self.place, at, into);
        }
        self.rack.read(file, at, into)
    }

    fn write(&mut self, file: u8, at: u64, bytes: &[u8]) -> Result<(), Failed> {
        if self.is_own(file) {
            return self.rack.run_write(self.place, at, bytes);
        }
        self.rack.write(file, at, bytes)
    }

    fn sync(&mut self, file: u8) -> Result<(), Failed> {
        if self.is_own(file) {
            return self.rack.run_sync(self.place);
        }
        self.rack.sync(file)
    }
}

impl<'a, R: Rack> Site for RunView<'a, R> {
    fn put(&mut self, parcel: Parcel) {
        self.rack.put(parcel)
    }

    fn take(&mut self) -> Result<Option<Parcel>, AllocError> {
        self.rack.take()
    }

    fn say(&mut self, bytes: &[u8]) -> Result<(), Failed> {
        self.rack.say(bytes)
    }

    fn reach(&mut self, moment: u64) -> u64 {
        self.rack.reach(moment)
    }
}
