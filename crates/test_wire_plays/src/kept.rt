// The files of an end, between two calls.
ghost use Rattle.std.specs.Prelude.{◌≤◌};

use crate::around::plan;
use cacao_site::{Bytes, Disk};
use cacao_site_memory::MemorySite;
use std::alloc::{AllocError, Global};
use test_session_plays::fair;

/// The bytes of files 0 to 16.
#[derive(Drop)]
pub struct Kept {
    files: Vec<Bytes>,
}

/// Adds a block of a file; how many bytes it has, which are none where it can't be read.
fn add_block(site: &mut MemorySite, file: u8, bytes: &mut Vec<u8>) -> Result<usize, AllocError>
    requires { file ≤ 16 }
{
    let mut block = [0u8; 4096];
    let Ok(count) = site.read(file, bytes.len() as u64, &mut block) else {
        return Ok(0);
    };
    bytes.extend_from_slice(&block[..count as usize])?;
    Ok(count as usize)
}

/// The bytes of a file, as far as 65,536 of them go.
fn read_file(alloc: Global, site: &mut MemorySite, file: u8) -> Result<Bytes, AllocError>
    requires { file ≤ 16 }
{
    let mut bytes = Vec::new(alloc);
    for _block in 0..16u8 {
        if add_block(site, file, &mut bytes)? == 0 {
            break;
        }
    }
    Ok(Bytes::from_vec(bytes))
}

/// Writes a file.
fn write_file(site: &mut MemorySite, file: u8, bytes: &[u8])
    requires { file ≤ 16 }
{
    if bytes.is_empty() || bytes.len() > 65_536 {
        return;
    }
    if site.write(file, 0, bytes).is_ok() {
        let _ = site.sync(file);
    }
}

impl Kept {
    /// Blank files.
    pub fn blank(alloc: Global) -> Kept {
        Kept {
            files: Vec::new(alloc),
        }
    }

    /// What a crash that is picked so leaves of the files of a site.
    pub(crate) fn left(alloc: Global, site: MemorySite, choice: u64) -> Result<Kept, AllocError> {
        let plan = plan(alloc, fair())?;
        let mut site = site.crash_with(choice, plan)?;
        let mut files = Vec::new(alloc);
        for file in 0..17u8 {
            files.push(read_file(alloc, &mut site, file)?)?;
        }
        Ok(Kept { files })
    }

    /// A site with these files.
    pub(crate) fn filled(&self, alloc: Global) -> Result<MemorySite, AllocError> {
        let plan = plan(alloc, fair())?;
        let mut site = MemorySite::new(alloc, plan)?;
        for file in 0..17u8 {
            write_file(&mut site, file, self.file(file));
        }
        Ok(site)
    }

    /// The bytes of a file; none where there is none of that number.
    pub fn file(&self, number: u8) -> &[u8] {
        match self.files.get(number as usize) {
            Some(bytes) => bytes.as_slice(),
            None => b"",
        }
    }

    /// The same files, but that one of them has other bytes.
    pub fn with(&self, alloc: Global, number: u8, bytes: &[u8]) -> Result<Kept, AllocError> {
        let mut files = Vec::new(alloc);
        for file in 0..17u8 {
            let bytes = if file == number {
                bytes
            } else {
                self.file(file)
            };
            files.push(Bytes::from_slice(alloc, bytes)?)?;
        }
        Ok(Kept { files })
    }
}
