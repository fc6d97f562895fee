// What the files of a site in memory read as at present.
ghost use Rattle.std.specs.Prelude.{◌≡◌, ◌≢◌, ◌⊎◌, ℕ, List, ◌+◌, ◌*◌, ◌/◌, ◌^◌, ◌<◌, ◌≤◌, [], true, length, replicate, slice_index, vec_capacity, IfOk};
ghost use Rattle.cacao_site_memory.specs.Pages.{ArePages};
ghost use Rattle.cacao_site_log.specs.Replay.{byte_after, spliced};

use crate::file_list::{FILES, FileList};
use crate::room::add_zeros;
use std::alloc::{AllocError, Global};

/// How many bytes a page has.
const PAGE: usize = 4096;

/// The most blocks of a file: 64 MiB.
const MOST_BLOCKS: usize = 16_384;

/// The length and the bytes of each file, in memory that was taken before.
///
/// So neither a length nor a read goes through the record of calls. Bytes stand in pages. A file is whole until a
/// write finds no page for it, which is so only where writes left gaps: of such a file the length alone is kept.
pub struct KeptFiles {
    lengths: [u64; 32],
    whole: [bool; 32],
    // The page of each block of each file: block by block, and the 32 files in each. Page 0 has zeros.
    table: Vec<u32>,
    pages: Vec<u8>,
    count: u32,
    most: u32,
    ghost paged: { ArePages table.items pages.items count },
    ghost room: { 4096 * most ≤ vec_capacity pages },
    ghost counted: { count ≤ most },
}

// (by hand, and not by derive: so a drop is one call in the proofs of all who own one)
impl Drop for KeptFiles {
    fn drop(self) {
        let Self {
            lengths: _,
            whole: _,
            table: _,
            pages: _,
            count: _,
            most: _,
        } = self;
    }
}

impl KeptFiles {
    ghost use Rattle.cacao_site_memory.specs.KeptFiles.{length_of, is_whole, byte_of, Keeps, AreKept};

    /// The files as they are at the start, with room for `room` bytes more, where writes leave no gap.
    pub fn new(alloc: Global, starts: &FileList, room: usize) -> Result<KeptFiles, AllocError>
        ensures { IfOk result (AreKept starts.now []) }
    {
        let mut kept = KeptFiles::blank(alloc, size_of_all(starts).saturating_add(room))?;
        for file in 0..FILES {
            kept.write(file, 0, starts.file(file));
        }
        Ok(kept)
    }

    /// No byte, with room for so many, where writes leave no gap.
    fn blank(alloc: Global, room: usize) -> Result<KeptFiles, AllocError>
        ensures { IfOk result (λ kept. (file : ℕ) → file ≤ 31 → Keeps kept file []) }
    {
        // A page for each full one, for the rest of each file, and for the zeros.
        let most = (room / PAGE).min(u32::MAX as usize - 33) + 33;
        let mut pages = Vec::with_capacity(alloc, most * PAGE)?;
        add_zeros(&mut pages, PAGE);
        let table = blank_table(alloc, ((room / PAGE).min(MOST_BLOCKS) + 1) * 32)?;
        Ok(KeptFiles {
            lengths: [0; 32],
            whole: [true; 32],
            table,
            pages,
            count: 1,
            most: most as u32,
        })
    }

    /// The file's length in bytes.
    pub fn length(&self, file: u8) -> u64
        requires { file ≤ 31 }
        ensures { result ≡ length_of self.now file }
    {
        self.lengths[file as usize]
    }

    /// Whether the bytes of the file are kept.
    pub fn is_whole(&self, file: u8) -> bool
        requires { file ≤ 31 }
        ensures { result ≡ is_whole self.now file }
    {
        self.whole[file as usize]
    }

    /// Fills the buffer with what the file has from place `at` on, and with zeros past its end.
    pub fn fill(&self, file: u8, at: u64, into: &mut [u8])
        requires file { file ≤ 31 }
        requires end { at + length into.old < 2 ^ 64 }
        ensures { (k : ℕ) → k < length into.old → slice_index into.new k ≡ byte_of self.now file (at + k) }
    {
        for k in 0..into.len() {
            into[k] = self.byte(file, at + k as u64);
        }
    }

    /// The byte at this place of the file; 0 past its end.
    #[tactic(auto, unfolding(crate::specs::Pages::byte_in))]
    fn byte(&self, file: u8, place: u64) -> u8
        requires { file ≤ 31 }
        ensures { result ≡ byte_of self.now file place }
    {
        let slot = place as usize / PAGE * 32 + file as usize;
        let page = match self.table.get(slot) {
            Some(page) => *page as usize,
            None => 0,
        };
        self.pages[page * PAGE + place as usize % PAGE]
    }

    /// Brings a file up to a write that was done.
    pub fn write(&mut self, file: u8, at: u64, bytes: &[u8])
        requires file { file ≤ 31 }
        requires end { at + length bytes.now < 2 ^ 64 }
        ensures written { (was : List ℕ) → Keeps self.old file was → Keeps self.new file (spliced at bytes.now was) }
        ensures others { (other : ℕ) (was : List ℕ) → other ≤ 31 → other ≢ file → Keeps self.old other was → Keeps self.new other was }
    {
        let whole = self.put_all(file, at, bytes);
        let place = file as usize;
        self.whole[place] = whole;
        self.lengths[place] = self.lengths[place].max(at + bytes.len() as u64);
    }

    /// Puts the bytes at place `at` of the file, if that is whole; false where it is not, or finds no page.
    fn put_all(&mut self, file: u8, at: u64, bytes: &[u8]) -> bool
        requires file { file ≤ 31 }
        requires end { at + length bytes.now < 2 ^ 64 }
        ensures was_whole { result ≡ true → is_whole self.old file ≡ true }
        ensures put { result ≡ true → (place : ℕ) → byte_of self.new file place ≡ byte_after at bytes.now place (byte_of self.old file place) }
        ensures others { (other place : ℕ) → other ≤ 31 → other ≢ file → byte_of self.new other place ≡ byte_of self.old other place }
        ensures lengths { self.new.lengths ≡ self.old.lengths }
        ensures whole { self.new.whole ≡ self.old.whole }
    {
        if !self.whole[file as usize] {
            return false;
        }
        for k in 0..bytes.len() {
            if !self.put(file, at + k as u64, bytes[k]) {
                return false;
            }
        }
        true
    }

    /// Puts a byte at this place of the file; false where it finds no page.
    fn put(&mut self, file: u8, place: u64, byte: u8) -> bool
        requires { file ≤ 31 }
        ensures put { result ≡ true → byte_of self.new file place ≡ byte }
        ensures others { (other k : ℕ) → other ≤ 31 → (other ≢ file) ⊎ (k ≢ place) → byte_of self.new other k ≡ byte_of self.old other k }
        ensures lengths { self.new.lengths ≡ self.old.lengths }
        ensures whole { self.new.whole ≡ self.old.whole }
    {
        let slot = place as usize / PAGE * 32 + file as usize;
        let page = self.page_at(slot);
        if page == 0 {
            return false;
        }
        self.pages[page as usize * PAGE + place as usize % PAGE] = byte;
        true
    }

    /// The page of a block, which gets one if it has none; 0 where it finds none.
    fn page_at(&mut self, slot: usize) -> u32
        ensures page { result ≡ slice_index self.new.table.items slot }
        ensures bytes { (file place : ℕ) → byte_of self.new file place ≡ byte_of self.old file place }
        ensures lengths { self.new.lengths ≡ self.old.lengths }
        ensures whole { self.new.whole ≡ self.old.whole }
    {
        if slot >= self.table.len() {
            return 0;
        }
        if self.table[slot] == 0 && self.count < self.most {
            self.add_page(slot);
        }
        self.table[slot]
    }

    /// Gives a block a page of zeros.
    fn add_page(&mut self, slot: usize)
        requires slot { slot < length self.old.table.items }
        requires none { slice_index self.old.table.items slot ≡ 0 }
        requires room { self.old.count < self.old.most }
        ensures size { length self.new.table.items ≡ length self.old.table.items }
        ensures bytes { (file place : ℕ) → byte_of self.new file place ≡ byte_of self.old file place }
        ensures lengths { self.new.lengths ≡ self.old.lengths }
        ensures whole { self.new.whole ≡ self.old.whole }
    {
        add_zeros(&mut self.pages, PAGE);
        self.table[slot] = self.count;
        self.count += 1;
    }
}

/// A table where no block has a page.
fn blank_table(alloc: Global, size: usize) -> Result<Vec<u32>, AllocError>
    ensures { IfOk result (λ table. table.items ≡ replicate size 0) }
{
    vec![in alloc; 0; size]
}

/// The bytes of all files together.
fn size_of_all(files: &FileList) -> usize {
    let mut size = 0usize;
    for file in 0..FILES {
        size = size.saturating_add(files.file(file).len());
    }
    size
}
