// The files of a disk in the current folder, and those of them that are open.
ghost use Rattle.std.specs.Prelude.{◌≡◌, ◌≤◌, length, drop, None, IfOk, OnOk, IfSome, IsSome, IsSomeAnd};
ghost use Rattle.cacao_site_files.specs.Holding.{IsHeld, KeepsHeld};

use crate::locks;
use crate::locks::Locks;
use std::fs::{File, OpenFile, OpenOptions};
use std::io::{Seek, SeekFrom};
use std::os::unix::fs::FileExt;
use std::rt::Files;
use std::{array, fs, io};

/// How many files a disk has.
pub(crate) const FILES: usize = 32;

/// The most bytes of a journal.
const MOST_BYTES: u64 = 67_108_864;

/// How often a file whose lock file is there is looked at until it has grown. A look takes some ten-millionths of a second.
const MOST_LOOKS: u32 = 40_000;

/// The names of the files in the current folder, by number.
static NAMES: [&str; FILES] = [
    "engine.journal",
    "agent-01.journal",
    "agent-02.journal",
    "agent-03.journal",
    "agent-04.journal",
    "agent-05.journal",
    "agent-06.journal",
    "agent-07.journal",
    "agent-08.journal",
    "agent-09.journal",
    "agent-10.journal",
    "agent-11.journal",
    "agent-12.journal",
    "agent-13.journal",
    "agent-14.journal",
    "agent-15.journal",
    "agent-16.journal",
    "engine-01.journal",
    "engine-02.journal",
    "engine-03.journal",
    "engine-04.journal",
    "engine-05.journal",
    "engine-06.journal",
    "engine-07.journal",
    "engine-08.journal",
    "engine-09.journal",
    "engine-10.journal",
    "engine-11.journal",
    "engine-12.journal",
    "engine-13.journal",
    "engine-14.journal",
    "engine-15.journal",
];

/// A file that is open.
#[derive(Drop)]
struct OneFile {
    file: File,
    // Whether it is open for writing too.
    writable: bool,
}

/// Files 0 to 31 in the current folder.
///
/// A file is opened by its first read, write or sync, and stays open. Each write and each sync behind the first write
/// has the same descriptor, so that no error of an earlier write is lost to a sync. After a sync that failed each later
/// sync of the file fails. No call takes memory.
///
/// Files that are to be written are written by no other program that keeps to the locks: the first call on a file takes
/// its lock, and fails where it can't. Files that are to be read alone may be lengthened meanwhile. They are whole
/// where they are read from the front to the first read that comes short.
#[derive(Drop)]
pub struct OpenFiles<'a, R> {
    rt: &'a R,
    // None where no file is to be written.
    locks: Option<Locks>,
    slots: [Option<OneFile>; FILES],
    // Whether the file was sought and is not there, by its number. Never where files are to be read alone: another program
    // may make one then, and none may while the lock is held.
    absent: [bool; FILES],
    // Whether the folder is known to have the file, by its number.
    in_folder: [bool; FILES],
    // Whether a sync of the file failed. What was written before may be lost, and no later sync would tell.
    spoilt: [bool; FILES],
}

impl<'a, R: Files<File = File>> OpenFiles<'a, R> {
    /// Files that are to be read alone. None is open.
    pub fn to_read(rt: &'a R) -> OpenFiles<'a, R>
        ensures { result.locks ≡ None }
    {
        OpenFiles {
            rt,
            locks: None,
            slots: array::from_fn(|_| None),
            absent: [false; FILES],
            in_folder: [false; FILES],
            spoilt: [false; FILES],
        }
    }

    /// Files that are to be read and written. None is open, and no lock is held.
    pub fn to_write(rt: &'a R) -> OpenFiles<'a, R>
        ensures { IsSome result.locks }
    {
        OpenFiles {
            locks: Some(Locks::new()),
            ..OpenFiles::to_read(rt)
        }
    }

    /// Removes the files of the locks that are held, as the last that a program does which writes.
    pub fn remove_locks(&self) {
        if let Some(locks) = &self.locks {
            locks.remove_files(self.rt);
        }
    }

    /// Where files are to be written, holds the lock of this one.
    fn hold(&mut self, file: u8) -> io::Result<()>
        requires { file ≤ 31 }
        ensures holds { OnOk result (IfSome self.new.locks (λ locks. IsHeld locks.held file)) }
        ensures keeps { IfSome self.old.locks (λ old. IsSomeAnd self.new.locks (λ new. KeepsHeld old.held new.held)) }
        ensures reads { self.old.locks ≡ None → self.new.locks ≡ None }
    {
        match &mut self.locks {
            Some(locks) => locks.hold(self.rt, file),
            None => Ok(()),
        }
    }

    /// The file's length in bytes; 0 for a file that is not there.
    ///
    /// Of a file that is to be read alone, and may grow meanwhile, it is the most that a journal can have, or more where
    /// the file has more.
    pub fn length(&mut self, file: u8) -> io::Result<u64>
        requires { file ≤ 31 }
        ensures holds { OnOk result (IfSome self.new.locks (λ locks. IsHeld locks.held file)) }
        ensures keeps { IfSome self.old.locks (λ old. IsSomeAnd self.new.locks (λ new. KeepsHeld old.held new.held)) }
        ensures reads { self.old.locks ≡ None → self.new.locks ≡ None }
    {
        self.hold(file)?;
        let length = match self.length_now(file)? {
            Some(length) => length,
            None => return Ok(0),
        };
        if self.locks.is_some() {
            Ok(length)
        } else {
            Ok(length.max(MOST_BYTES))
        }
    }

    /// The length that the system tells, if the file is there. A file that was sought and is not there is not sought again.
    fn length_now(&mut self, file: u8) -> io::Result<Option<u64>>
        requires { file ≤ 31 }
        ensures locks { self.new.locks ≡ self.old.locks }
    {
        if let Some(one) = &self.slots[file as usize] {
            return Ok(Some(one.file.metadata()?.len()));
        }
        if self.absent[file as usize] {
            return Ok(None);
        }
        match self.rt.metadata(NAMES[file as usize]) {
            Ok(metadata) => Ok(Some(metadata.len())),
            Err(e) if e.kind() == io::ErrorKind::NotFound => {
                self.absent[file as usize] = self.locks.is_some();
                Ok(None)
            }
            Err(e) => Err(e),
        }
    }

    /// Fills the front of the buffer with what the file has from place `at` on, and answers how many bytes that is.
    ///
    /// It needs no right to write. Where a file that is to be read alone ends, its entries are durable when this returns. Where
    /// no byte is asked for, no call of the system is made but for the lock.
    pub fn read(&mut self, file: u8, at: u64, into: &mut [u8]) -> io::Result<usize>
        requires file { file ≤ 31 }
        requires size { length into.old ≤ 4_096 }
        ensures count { IfOk result (λ n. n ≤ length into.old) }
        ensures behind { IfOk result (λ n. drop n into.new ≡ drop n into.old) }
        ensures holds { OnOk result (IfSome self.new.locks (λ locks. IsHeld locks.held file)) }
        ensures keeps { IfSome self.old.locks (λ old. IsSomeAnd self.new.locks (λ new. KeepsHeld old.held new.held)) }
        ensures reads { self.old.locks ≡ None → self.new.locks ≡ None }
    {
        self.hold(file)?;
        if into.is_empty() {
            return Ok(0);
        }
        self.open_to_read(file)?;
        let (rt, is_written) = (self.rt, self.locks.is_some());
        let Some(one) = &mut self.slots[file as usize] else {
            return Ok(0);
        };
        let count = fill(&one.file, at, into)?;
        let end = at.saturating_add(count as u64);
        if !is_written && (count < into.len() || end >= MOST_BYTES) {
            settle(rt, &mut one.file, file, end)?;
        }
        Ok(count)
    }

    /// Writes the bytes at place `at`, and makes the file if it is not there. Fails where files are to be read alone.
    ///
    /// Where there is no byte, it makes the file at least that long. A file that was opened to read alone is opened
    /// anew.
    pub fn write(&mut self, file: u8, at: u64, bytes: &[u8]) -> io::Result<()>
        requires { file ≤ 31 }
        ensures holds { OnOk result (IfSome self.new.locks (λ locks. IsHeld locks.held file)) }
        ensures keeps { IfSome self.old.locks (λ old. IsSomeAnd self.new.locks (λ new. KeepsHeld old.held new.held)) }
        ensures reads { self.old.locks ≡ None → self.new.locks ≡ None }
    {
        if self.locks.is_none() {
            return Err(io::Error::from(io::ErrorKind::Unsupported));
        }
        self.hold(file)?;
        if let Some(one) = &self.slots[file as usize] {
            if one.writable {
                return put(&one.file, at, bytes);
            }
        }
        self.absent[file as usize] = false;
        let opened = OpenOptions::new()
            .read(true)
            .write(true)
            .create(true)
            .open(self.rt, NAMES[file as usize])?;
        let done = put(&opened, at, bytes);
        self.slots[file as usize] = Some(OneFile {
            file: opened,
            writable: true,
        });
        done
    }

    /// Makes the file durable, if it is there. It needs no right to write.
    ///
    /// Of a file that is to be read alone nothing is to be made durable here: the read that comes to its end does that.
    pub fn sync(&mut self, file: u8) -> io::Result<()>
        requires { file ≤ 31 }
        ensures holds { OnOk result (IfSome self.new.locks (λ locks. IsHeld locks.held file)) }
        ensures keeps { IfSome self.old.locks (λ old. IsSomeAnd self.new.locks (λ new. KeepsHeld old.held new.held)) }
        ensures reads { self.old.locks ≡ None → self.new.locks ≡ None }
    {
        if self.locks.is_none() {
            return Ok(());
        }
        self.hold(file)?;
        if self.spoilt[file as usize] {
            return Err(io::Error::from(io::ErrorKind::Other));
        }
        self.open_to_read(file)?;
        let Some(one) = &self.slots[file as usize] else {
            return Ok(());
        };
        if let Err(error) = one.file.sync_all() {
            self.spoilt[file as usize] = true;
            return Err(error);
        }
        if let Err(error) = self.sync_folder(file) {
            self.spoilt[file as usize] = true;
            return Err(error);
        }
        Ok(())
    }

    /// Syncs the folder of the file, the first time.
    fn sync_folder(&mut self, file: u8) -> io::Result<()>
        requires { file ≤ 31 }
        ensures locks { self.new.locks ≡ self.old.locks }
    {
        if !self.in_folder[file as usize] {
            fs::open(self.rt, ".")?.sync_all()?;
            self.in_folder[file as usize] = true;
        }
        Ok(())
    }

    /// Opens the file, if it is there and not open. A file that was sought and is not there is not sought again.
    fn open_to_read(&mut self, file: u8) -> io::Result<()>
        requires { file ≤ 31 }
        ensures locks { self.new.locks ≡ self.old.locks }
    {
        if self.slots[file as usize].is_some() || self.absent[file as usize] {
            return Ok(());
        }
        match fs::open(self.rt, NAMES[file as usize]) {
            Ok(opened) => {
                self.slots[file as usize] = Some(OneFile {
                    file: opened,
                    writable: false,
                });
                Ok(())
            }
            Err(e) if e.kind() == io::ErrorKind::NotFound => {
                self.absent[file as usize] = self.locks.is_some();
                Ok(())
            }
            Err(e) => Err(e),
        }
    }
}

/// Writes the bytes at place `at`. Where there is no byte, it makes the file at least that long.
fn put<F: FileExt + OpenFile>(file: &F, at: u64, bytes: &[u8]) -> io::Result<()> {
    if bytes.is_empty() && file.metadata()?.len() < at {
        return file.set_len(at);
    }
    file.write_all_at(bytes, at)
}

/// Sees to it that the entries that were read of the file of this number are durable, of which no byte came from place `end` on.
///
/// Where the file has grown since, they are: who appends an entry has synced the file behind the gates of all before it,
/// and only then makes the file longer. Else it is synced here, at once where no program seems to write it: a sync keeps
/// those waiting that another program makes meanwhile.
fn settle<R: Files<File = File>>(rt: &R, opened: &mut File, file: u8, end: u64) -> io::Result<()>
    requires { file ≤ 31 }
{
    if locks::has_file(rt, file) && has_grown(opened, end) {
        return Ok(());
    }
    opened.sync_all()
}

/// Whether the file gets longer than this, while it is looked at. Its length is asked in the way that leaves no trace in the
/// file's own record of when it was read or asked for, which the next sync of who writes it would have to take along.
fn has_grown<F: Seek>(file: &mut F, end: u64) -> bool {
    for _ in 0..MOST_LOOKS {
        if matches!(file.seek(SeekFrom::End(0)), Ok(length) if length > end) {
            return true;
        }
    }
    false
}

/// Fills the front of the buffer with what the file has from place `at` on, and answers how many bytes that is.
fn fill<F: FileExt>(file: &F, at: u64, into: &mut [u8]) -> io::Result<usize>
    requires { length into.old ≤ 4_096 }
    ensures count { IfOk result (λ n. n ≤ length into.old) }
    ensures behind { IfOk result (λ n. drop n into.new ≡ drop n into.old) }
{
    let mut block = [0u8; 4096];
    let count = fill_whole(file, at, &mut block[..into.len()])?;
    into[..count].copy_from_slice(&block[..count]);
    Ok(count)
}

/// The same, where what lies behind may change.
fn fill_whole<F: FileExt>(file: &F, at: u64, into: &mut [u8]) -> io::Result<usize>
    ensures { IfOk result (λ n. n ≤ length into.old) }
{
    let mut count = 0usize;
    for _ in 0..into.len() {
        let more = file.read_at(&mut into[count..], at.saturating_add(count as u64))?;
        if more == 0 {
            break;
        }
        count += more;
    }
    Ok(count)
}
