// A site over the system.
ghost use Rattle.std.specs.Prelude.{◌≡◌, ℕ, []};
ghost use Rattle.cacao_site.specs.Clock.{clock_at};
ghost use Rattle.cacao_site.specs.Counts.{next_count};
ghost use Rattle.cacao_site.specs.DiskCalls.{CallsOn, KeepsDisk};
ghost use Rattle.cacao_site.specs.SiteCounts.{no_counts};
ghost use Rattle.cacao_site_files.specs.Untold.{untold_disk, untold_site};

use crate::open_files::OpenFiles;
use cacao_site::{Clock, Disk, Failed, Parcel, Rack, Site, SiteCounts};
use std::alloc::{AllocError, Global};
use std::collections::VecDeque;
use std::fs::File;
use std::io::Print;
use std::rt::Files;

/// A site over std's files and standard output, which tells no contents but its pending parcels.
///
/// File 0 is `engine.journal`, file `a` is `agent-NN.journal` and run file `k` is `engine-KK.journal`, with two
/// digits, in the current folder. A file stays open from the first call that opens it; a file that can only be read can
/// be read, and synced where nothing was written. A site writes the files, and then keeps other such sites from them by
/// locks, or only reads them. Each error of std, want of memory too, is a fault that is counted. A line goes out as it
/// is, with no buffer of this program's own. The link is a queue inside the process, first in, first out, and a parcel
/// for which it finds no memory is lost and counted. The clock starts at 0 and reaches what it is asked.
#[derive(Drop)]
pub struct FileSite<'a, R> {
    rt: &'a R,
    files: OpenFiles<'a, R>,
    beat: u64,
    faults: u64,
    queue: VecDeque<Parcel>,
    clock: Clock,
    counts: SiteCounts,
}

impl<'a, R: Files<File = File> + Print> FileSite<'a, R> {
    /// A site over this runtime that reads: each write fails, no file is made, and no lock is taken. It opens nothing and
    /// takes no memory.
    ///
    /// Another program may write the files meanwhile. What is read of a journal from its front to the first read that
    /// comes short has the entries that the journal had at one moment, and they are durable when that read returns.
    /// `length` of a file that is there is so no less than the most that a journal can have.
    pub fn reading(rt: &'a R, alloc: Global) -> FileSite<'a, R>
        ensures { ⟦<FileSite<'a, R> as Disk>⟧.view result ≡ untold_site 0 0 [] (clock_at 0) no_counts }
    {
        FileSite::over(rt, alloc, OpenFiles::to_read(rt))
    }

    /// A site over this runtime that reads and writes. It opens nothing and takes no memory.
    ///
    /// The first call on a file, whichever it is, takes the lock of that file beside it, which is held as long as the
    /// site: `engine.lock`, `engine-KK.lock`, or `agents.lock`, the one for the files of all filters. Where it can't be taken, since another program
    /// holds it or for any other cause, the call fails, and the next one tries again. `end` removes the locks' files.
    pub fn writing(rt: &'a R, alloc: Global) -> FileSite<'a, R>
        ensures { ⟦<FileSite<'a, R> as Disk>⟧.view result ≡ untold_site 0 0 [] (clock_at 0) no_counts }
    {
        FileSite::over(rt, alloc, OpenFiles::to_write(rt))
    }

    /// Ends the site, and removes the files of its locks. A site that reads has none.
    pub fn end(self) {
        self.files.remove_locks();
    }

    fn over(rt: &'a R, alloc: Global, files: OpenFiles<'a, R>) -> FileSite<'a, R>
        ensures { ⟦<FileSite<'a, R> as Disk>⟧.view result ≡ untold_site 0 0 [] (clock_at 0) no_counts }
    {
        FileSite {
            rt,
            files,
            beat: 0,
            faults: 0,
            queue: VecDeque::new(alloc),
            clock: Clock::new(0),
            counts: SiteCounts::new(),
        }
    }

    /// One call that did what it was asked to.
    fn succeed(&mut self)
        ensures faults { self.new.faults ≡ self.old.faults }
        ensures call { (file bytes : ℕ) → CallsOn file bytes
            (untold_disk self.old.beat self.old.faults) (untold_disk self.new.beat self.new.faults) }
        ensures keeps { KeepsDisk (untold_disk self.old.beat self.old.faults) (untold_disk self.new.beat self.new.faults) }
        ensures queue { self.new.queue ≡ self.old.queue }
        ensures clock { self.new.clock ≡ self.old.clock }
        ensures counts { self.new.counts ≡ self.old.counts }
    {
        self.beat = self.beat.saturating_add(1);
    }

    /// One call of the disk that failed.
    fn fail(&mut self)
        ensures faults { self.new.faults ≡ next_count self.old.faults }
        ensures call { (file bytes : ℕ) → CallsOn file bytes
            (untold_disk self.old.beat self.old.faults) (untold_disk self.new.beat self.new.faults) }
        ensures queue { self.new.queue ≡ self.old.queue }
        ensures clock { self.new.clock ≡ self.old.clock }
        ensures counts { self.new.counts ≡ self.old.counts }
    {
        self.beat = self.beat.saturating_add(1);
        self.faults = self.faults.saturating_add(1);
    }
}

impl<'a, R: Files<File = File> + Print> Disk for FileSite<'a, R> {
    ghost use Rattle.cacao_site.specs.Clock.{clock_view};
    ghost use Rattle.cacao_site.specs.SiteCounts.{counts_view};
    ghost use Rattle.cacao_site_files.specs.Untold.{untold_site};
    ghost use Rattle.cacao_site_files.specs.UntoldSound.{untold-sound};

    ghost view = { λ s. untold_site s.beat s.faults s.queue.items (clock_view s.clock) (counts_view s.counts) };

    ghost sound = { λ s. untold-sound s.beat s.faults s.queue.items (clock_view s.clock) (counts_view s.counts) };

    fn length(&mut self, file: u8) -> Result<u64, Failed> {
        match self.files.length(file) {
            Ok(size) => {
                self.succeed();
                Ok(size)
            }
            Err(_) => {
                self.fail();
                Err(Failed)
            }
        }
    }

    fn read(&mut self, file: u8, at: u64, into: &mut [u8]) -> Result<u32, Failed> {
        match self.files.read(file, at, into) {
            Ok(count) => {
                self.succeed();
                Ok(count as u32)
            }
            Err(_) => {
                self.fail();
                Err(Failed)
            }
        }
    }

    fn write(&mut self, file: u8, at: u64, bytes: &[u8]) -> Result<(), Failed> {
        match self.files.write(file, at, bytes) {
            Ok(()) => {
                self.succeed();
                Ok(())
            }
            Err(_) => {
                self.fail();
                Err(Failed)
            }
        }
    }

    fn sync(&mut self, file: u8) -> Result<(), Failed> {
        match self.files.sync(file) {
            Ok(()) => {
                self.succeed();
                Ok(())
            }
            Err(_) => {
                self.fail();
                Err(Failed)
            }
        }
    }
}

impl<'a, R: Files<File = File> + Print> Site for FileSite<'a, R> {
    fn put(&mut self, parcel: Parcel) {
        if self.queue.push_back(parcel).is_err() {
            self.counts.count_put(true);
        }
    }

    fn take(&mut self) -> Result<Option<Parcel>, AllocError> {
        Ok(self.queue.pop_front())
    }

    fn say(&mut self, bytes: &[u8]) -> Result<(), Failed> {
        self.succeed();
        match self.rt.write_all(bytes) {
            Ok(()) => {
                self.counts.count_say(false);
                Ok(())
            }
            Err(_) => {
                self.counts.count_say(true);
                Err(Failed)
            }
        }
    }

    fn reach(&mut self, moment: u64) -> u64 {
        self.clock.reach(moment, u64::MAX)
    }
}

impl<'a, R: Files<File = File> + Print> Rack for FileSite<'a, R> {
    fn run_length(&mut self, file: u8) -> Result<u64, Failed> {
        match self.files.length(16 + file) {
            Ok(size) => {
                self.succeed();
                Ok(size)
            }
            Err(_) => {
                self.fail();
                Err(Failed)
            }
        }
    }

    fn run_read(&mut self, file: u8, at: u64, into: &mut [u8]) -> Result<u32, Failed> {
        match self.files.read(16 + file, at, into) {
            Ok(count) => {
                self.succeed();
                Ok(count as u32)
            }
            Err(_) => {
                self.fail();
                Err(Failed)
            }
        }
    }

    fn run_write(&mut self, file: u8, at: u64, bytes: &[u8]) -> Result<(), Failed> {
        match self.files.write(16 + file, at, bytes) {
            Ok(()) => {
                self.succeed();
                Ok(())
            }
            Err(_) => {
                self.fail();
                Err(Failed)
            }
        }
    }

    fn run_sync(&mut self, file: u8) -> Result<(), Failed> {
        match self.files.sync(16 + file) {
            Ok(()) => {
                self.succeed();
                Ok(())
            }
            Err(_) => {
                self.fail();
                Err(Failed)
            }
        }
    }
}
