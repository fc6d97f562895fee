// The locks of the files that a program writes.
ghost use Rattle.std.specs.Prelude.{◌≡◌, ◌≤◌, ◌<◌, OnOk};
ghost use Rattle.cacao_site_files.specs.Holding.{IsHeld, KeepsHeld, lock_number};

use std::fs::{File, OpenFile, OpenOptions};
use std::os::unix::fs::{MetadataExt, OpenOptionsExt};
use std::rt::Files;
use std::{array, fs, io};

/// How many locks the files of a disk have.
const LOCKS: usize = 17;

/// The names of the lock files in the current folder, by the numbers of the locks.
static NAMES: [&str; LOCKS] = [
    "engine.lock",
    "agents.lock",
    "engine-01.lock",
    "engine-02.lock",
    "engine-03.lock",
    "engine-04.lock",
    "engine-05.lock",
    "engine-06.lock",
    "engine-07.lock",
    "engine-08.lock",
    "engine-09.lock",
    "engine-10.lock",
    "engine-11.lock",
    "engine-12.lock",
    "engine-13.lock",
    "engine-14.lock",
    "engine-15.lock",
];

/// Who may open a lock file that is made, but for those whom the umask leaves out. Whoever can open it can hold it.
const MODE: u32 = 0o660;

/// Whether the lock file of the file of this number is there: a program may hold its lock. It takes no lock.
pub(crate) fn has_file<R: Files>(rt: &R, file: u8) -> bool
    requires { file ≤ 31 }
{
    rt.metadata(NAMES[lock_of(file)]).is_ok()
}

/// The number of the file's lock.
fn lock_of(file: u8) -> usize
    requires { file ≤ 31 }
    ensures is { result ≡ lock_number file }
    ensures fits { result < 17 }
{
    match file {
        0 => 0,
        1..=16 => 1,
        _ => file as usize - 15,
    }
}

/// The locks that this program holds, by their numbers.
///
/// A lock is held from the first call for one of its files until the value is dropped or the process ends, however it
/// does. A lock file has no bytes. Who holds its lock removes it, as the last that it does; one that was killed leaves the
/// file, which locks nothing then.
#[derive(Drop)]
pub(crate) struct Locks {
    pub(crate) held: [Option<File>; LOCKS],
}

impl Locks {
    /// No lock is held.
    pub(crate) fn new() -> Locks {
        Locks {
            held: array::from_fn(|_| None),
        }
    }

    /// Takes the lock of the file, unless it is held. An error where another program holds it, and where its file can't
    /// be made, opened for writing, or locked, or was removed since it was opened, by the one that held the lock till then.
    /// It does not wait.
    pub(crate) fn hold<R: Files<File = File>>(&mut self, rt: &R, file: u8) -> io::Result<()>
        requires { file ≤ 31 }
        ensures holds { OnOk result (IsHeld self.new.held file) }
        ensures keeps { KeepsHeld self.old.held self.new.held }
    {
        if self.held[lock_of(file)].is_some() {
            return Ok(());
        }
        self.take(rt, file)
    }

    /// Takes the lock of the file, which is not held. It stands apart from `hold`, which nearly always has nothing to do.
    fn take<R: Files<File = File>>(&mut self, rt: &R, file: u8) -> io::Result<()>
        requires { file ≤ 31 }
        ensures holds { OnOk result (IsHeld self.new.held file) }
        ensures keeps { KeepsHeld self.old.held self.new.held }
    {
        let number = lock_of(file);
        let lock = OpenOptions::new()
            .write(true)
            .create(true)
            .mode(MODE)
            .open(rt, NAMES[number])?;
        lock.try_lock()?;
        if lock.metadata()?.nlink() == 0 {
            return Err(io::Error::from(io::ErrorKind::WouldBlock));
        }
        self.held[number] = Some(lock);
        Ok(())
    }

    /// Removes the files of the locks that are held. One that can't be removed stays, and locks nothing later.
    pub(crate) fn remove_files<R: Files<File = File>>(&self, rt: &R) {
        for number in 0..LOCKS {
            if self.held[number].is_some() {
                let _ = fs::remove_file(rt, NAMES[number]);
            }
        }
    }
}
