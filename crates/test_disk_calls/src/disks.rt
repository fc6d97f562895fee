// What rows are played on.
use crate::commands::Command;
use crate::plans::{plan, small_plan};
use cacao_site_memory::{MemoryShelf, MemorySite};
use std::alloc::{AllocError, Global};
use std::mem;
use test_rows::Row;
use test_site_calls::answers::{done, text, whole};
use test_site_calls::{number, outside_answer, parcel_answer, small, sync_lent};

/// A site and a shelf in memory, bytes that files are made of, and commands that wait for a filter.
#[derive(Drop)]
pub struct Disks {
    pub(crate) alloc: Global,
    pub(crate) site: MemorySite,
    shelf: MemoryShelf,
    pub(crate) bytes: Vec<u8>,
    pub(crate) commands: Vec<Command>,
}

/// A site with room for 10,000 bytes and 100 calls, of which none fails.
pub(crate) fn small_site(alloc: Global) -> Result<MemorySite, AllocError> {
    MemorySite::new(alloc, small_plan(alloc, Vec::new(alloc)))
}

impl Disks {
    /// A site with room for 10,000 bytes and 100 calls, an empty shelf, no bytes and no command.
    pub fn new(alloc: Global) -> Result<Disks, AllocError> {
        Ok(Disks {
            alloc,
            site: small_site(alloc)?,
            shelf: MemoryShelf::new(alloc),
            bytes: Vec::new(alloc),
            commands: Vec::new(alloc),
        })
    }

    /// The answer to a row; `no such row` where there is no call of that name.
    ///
    /// `site ROOM CALLS FAILING WEATHER START STOP` makes a site by a plan, `crash CHOICE` lets it crash, and `restart CHOICE` with a plan
    /// behind it lets it crash and go on by another plan. `sync_lent` syncs file 0 of the site, which is lent to the call.
    /// `shelf` makes an empty shelf, `add NAME BYTES` puts a file on it, `fail_at N` lets its read of this number fail.
    pub fn answer(&mut self, row: &Row) -> Result<Vec<u8>, AllocError> {
        match row.text(0) {
            "site" => self.make_site(row),
            "crash" => self.crash(number(row, 1)),
            "restart" => self.restart(row),
            "sync_lent" => self.lent(),
            "shelf" => self.make_shelf(),
            "add" => self.add(row),
            "fail_at" => self.fail_at(u32::from(small(row, 1))),
            _ => self.telling_answer(row),
        }
    }

    fn make_site(&mut self, row: &Row) -> Result<Vec<u8>, AllocError> {
        self.site = MemorySite::new(self.alloc, plan(self.alloc, row, 1)?)?;
        text(self.alloc, "ok")
    }

    fn make_shelf(&mut self) -> Result<Vec<u8>, AllocError> {
        self.shelf = MemoryShelf::new(self.alloc);
        text(self.alloc, "ok")
    }

    fn add(&mut self, row: &Row) -> Result<Vec<u8>, AllocError> {
        self.shelf.add(row.text(1), row.bytes(2))?;
        text(self.alloc, "ok")
    }

    fn fail_at(&mut self, read: u32) -> Result<Vec<u8>, AllocError> {
        self.shelf.fail_at(read);
        text(self.alloc, "ok")
    }

    fn lent(&mut self) -> Result<Vec<u8>, AllocError> {
        let mut other = small_site(self.alloc)?;
        done(self.alloc, sync_lent(&mut self.site, &mut other))
    }

    /// Takes the site away, and leaves a small one.
    fn take_site(&mut self) -> Result<MemorySite, AllocError> {
        Ok(mem::replace(&mut self.site, small_site(self.alloc)?))
    }

    fn crash(&mut self, choice: u64) -> Result<Vec<u8>, AllocError> {
        self.site = self.take_site()?.crash(choice)?;
        text(self.alloc, "ok")
    }

    fn restart(&mut self, row: &Row) -> Result<Vec<u8>, AllocError> {
        let plan = plan(self.alloc, row, 2)?;
        self.site = self.take_site()?.crash_with(number(row, 1), plan)?;
        text(self.alloc, "ok")
    }

    /// What the site tells: `lines`, `line N`, `puts`, `parcel N`, `mishaps` and `shorts`.
    fn telling_answer(&mut self, row: &Row) -> Result<Vec<u8>, AllocError> {
        match row.text(0) {
            "lines" => whole(self.alloc, self.site.line_count() as u64),
            "line" => self.line(number(row, 1)),
            "puts" => whole(self.alloc, self.site.put_count() as u64),
            "parcel" => self.parcel(number(row, 1)),
            "mishaps" => whole(self.alloc, self.site.mishaps()),
            "shorts" => whole(self.alloc, self.site.shorts()),
            _ => self.bytes_answer(row),
        }
    }

    /// A line said, by its number from 0.
    fn line(&self, number: u64) -> Result<Vec<u8>, AllocError> {
        if number >= self.site.line_count() as u64 {
            return text(self.alloc, "none");
        }
        Vec::from_slice(self.alloc, self.site.line(number as usize))
    }

    /// A parcel put, by its number from 0.
    fn parcel(&self, number: u64) -> Result<Vec<u8>, AllocError> {
        if number >= self.site.put_count() as u64 {
            return text(self.alloc, "none");
        }
        parcel_answer(self.alloc, self.site.parcel_put(number as usize))
    }

    /// The answer where bytes are made; the other rows are in `journals` and `filters`.
    ///
    /// `bytes BYTES` sets the bytes that files are made of, `lengthen LENGTH BYTE` makes them longer and `more BYTES` adds some; the answer is
    /// how many there are.
    fn bytes_answer(&mut self, row: &Row) -> Result<Vec<u8>, AllocError> {
        match row.text(0) {
            "bytes" => {
                self.bytes.clear();
                self.add_bytes(row.bytes(1))
            }
            "lengthen" => self.lengthen(number(row, 1).min(100_000) as usize, small(row, 2)),
            "more" => self.add_bytes(row.bytes(1)),
            _ => self.journal_answer(row),
        }
    }

    fn add_bytes(&mut self, bytes: &[u8]) -> Result<Vec<u8>, AllocError> {
        self.bytes.extend_from_slice(bytes)?;
        whole(self.alloc, self.bytes.len() as u64)
    }

    fn lengthen(&mut self, length: usize, byte: u8) -> Result<Vec<u8>, AllocError> {
        self.bytes.resize(length, byte)?;
        whole(self.alloc, self.bytes.len() as u64)
    }

    /// The answer of the site or the shelf; `no such row` where the row calls neither.
    pub(crate) fn site_answer(&mut self, row: &Row) -> Result<Vec<u8>, AllocError> {
        outside_answer(self.alloc, &mut self.site, &mut self.shelf, row)
    }
}
