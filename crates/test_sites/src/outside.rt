// The outside over the system, called by rows.
use crate::folder::folder_answer;
use crate::played::Answers;
use cacao_site_files::{FileShelf, FileSite};
use std::alloc::{AllocError, Global};
use std::fs::File;
use std::io::Print;
use std::mem;
use std::rt::Files;
use test_rows::Row;
use test_site_calls::answers::text;
use test_site_calls::outside_answer;

/// The names that a shelf reads at one moment.
static TOGETHER: [&str; 2] = ["one", "two"];

/// Two sites and a shelf over the system.
#[derive(Drop)]
pub(crate) struct Outside<'a, R> {
    rt: &'a R,
    alloc: Global,
    site: FileSite<'a, R>,
    other: FileSite<'a, R>,
    shelf: FileShelf<'a, R>,
}

impl<'a, R: Files<File = File> + Print> Outside<'a, R> {
    /// Sites on which no file is open, and a shelf.
    pub(crate) fn new(rt: &'a R, alloc: Global) -> Outside<'a, R> {
        Outside {
            rt,
            alloc,
            site: FileSite::writing(rt, alloc),
            other: FileSite::writing(rt, alloc),
            shelf: FileShelf::new(rt),
        }
    }

    /// Takes this site in the place of the present one.
    fn put_site(&mut self, site: FileSite<'a, R>) -> Result<Vec<u8>, AllocError> {
        self.site = site;
        text(self.alloc, "ok")
    }

    /// Takes this shelf in the place of the present one.
    fn put_shelf(&mut self, shelf: FileShelf<'a, R>) -> Result<Vec<u8>, AllocError> {
        self.shelf = shelf;
        text(self.alloc, "ok")
    }

    /// Exchanges the present site and the other one.
    fn swap(&mut self) -> Result<Vec<u8>, AllocError> {
        mem::swap(&mut self.site, &mut self.other);
        text(self.alloc, "ok")
    }

    /// The answer of the folder, or else of the site or the shelf.
    fn call_answer(&mut self, row: &Row) -> Result<Vec<u8>, AllocError> {
        match folder_answer(self.rt, self.alloc, row)? {
            Some(answer) => Ok(answer),
            None => outside_answer(self.alloc, &mut self.site, &mut self.shelf, row),
        }
    }
}

impl<'a, R: Files<File = File> + Print> Answers for Outside<'a, R> {
    /// `site` makes a site that writes, `reader` one that reads, in the place of the present one; `swap` exchanges the present one and another.
    /// `together` makes a shelf that reads the files `one` and `two` at one moment, `shelf` one that does not.
    fn answer(&mut self, row: &Row) -> Result<Vec<u8>, AllocError> {
        match row.text(0) {
            "site" => self.put_site(FileSite::writing(self.rt, self.alloc)),
            "reader" => self.put_site(FileSite::reading(self.rt, self.alloc)),
            "swap" => self.swap(),
            "together" => self.put_shelf(FileShelf::of_one_moment(self.rt, &TOGETHER)),
            "shelf" => self.put_shelf(FileShelf::new(self.rt)),
            _ => self.call_answer(row),
        }
    }
}
