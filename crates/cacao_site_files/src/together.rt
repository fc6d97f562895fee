// Files that are read as they are at one moment.
use crate::growing::Growing;
use std::alloc::{AllocError, Global};
use std::collections::VecDeque;
use std::fs::OpenFile;
use std::io::{Read, Seek};
use std::rt::Files;
use std::{fs, io};

/// How often files are looked at until none has grown. A look takes some millionths of a second, and an append some ten.
const MOST_LOOKS: u32 = 1_000_000;

/// What came of reading a file.
#[derive(Drop)]
pub(crate) enum Came {
    /// There is no such file.
    Missing,
    Failed,
    /// Its bytes, or its front, which has more of them than were asked for.
    Bytes(Vec<u8>),
}

/// A file that is read, and may have grown since.
#[derive(Drop)]
enum Reading<F> {
    Missing,
    Failed,
    Open(Growing<F>),
}

impl<F: Read + Seek + OpenFile + Drop> Reading<F> {
    fn begin<R: Files<File = F>>(
        rt: &R,
        alloc: Global,
        name: &str,
        most: u32,
    ) -> Result<Reading<F>, AllocError> {
        let file = match fs::open(rt, name) {
            Ok(file) => file,
            Err(e) if e.kind() == io::ErrorKind::NotFound => return Ok(Reading::Missing),
            Err(_) => return Ok(Reading::Failed),
        };
        match Growing::read(alloc, file, most)? {
            Ok(growing) => Ok(Reading::Open(growing)),
            Err(_) => Ok(Reading::Failed),
        }
    }

    fn has_grown(&mut self, most: u32) -> Result<bool, AllocError> {
        let Reading::Open(growing) = self else {
            return Ok(false);
        };
        match growing.has_grown(most)? {
            Ok(grown) => Ok(grown),
            Err(_) => {
                *self = Reading::Failed;
                Ok(false)
            }
        }
    }

    fn end(self) -> Came {
        match self {
            Reading::Missing => Came::Missing,
            Reading::Failed => Came::Failed,
            Reading::Open(growing) => Came::Bytes(growing.into_bytes()),
        }
    }
}

/// The file of this name.
pub(crate) fn read_alone<R: Files>(
    rt: &R,
    alloc: Global,
    name: &str,
    most: u32,
) -> Result<Came, AllocError> {
    Ok(Reading::begin(rt, alloc, name, most)?.end())
}

/// The files of these names, with the entries that each had at one moment. All fail where they did not stop growing.
pub(crate) fn read_together<R: Files>(
    rt: &R,
    alloc: Global,
    names: &[&str],
    most: u32,
) -> Result<VecDeque<Came>, AllocError> {
    let mut files = Vec::new(alloc);
    for name in names {
        files.push(Reading::begin(rt, alloc, name, most)?)?;
    }
    let are_still = wait_for(files.as_mut_slice(), most)?;
    let mut came = VecDeque::new(alloc);
    for file in files {
        came.push_back(if are_still { file.end() } else { Came::Failed })?;
    }
    Ok(came)
}

/// Whether there was a look at which no file had grown: its entries are then what the files had when that look began.
fn wait_for<F: Read + Seek + OpenFile + Drop>(
    files: &mut [Reading<F>],
    most: u32,
) -> Result<bool, AllocError> {
    for _ in 0..MOST_LOOKS {
        if !has_any_grown(files, most)? {
            return Ok(true);
        }
    }
    Ok(false)
}

fn has_any_grown<F: Read + Seek + OpenFile + Drop>(
    files: &mut [Reading<F>],
    most: u32,
) -> Result<bool, AllocError> {
    let mut any = false;
    for file in files.iter_mut() {
        any |= file.has_grown(most)?;
    }
    Ok(any)
}
