// The program that only looks on a site in memory, played by rows. Those of words have the words of a call with a space between each two,
// the number of the call of `say` that fails, if one does, and in the last field the status and the lines that are to come. Those of
// logs have the engine's files beside the words, those of books all playbooks on the shelf; both have beside that number that of the
// read that fails.
use crate::played::{Came, Plays, play_file};
use crate::view_calls::{answer, answer_about};
use std::alloc::{AllocError, Global};
use std::io;
use std::rt::Files;
use test_rows::{Row, read_file};

/// Rows of words.
#[derive(Clone, Copy)]
struct Words {
    alloc: Global,
}

impl Plays for Words {
    fn play(&mut self, row: &Row) -> Result<Came, AllocError> {
        Ok(Came::Said(answer(self.alloc, row.text(0), &[], None, row.whole(1))?))
    }
}

/// Plays the rows of words; true where all agreed.
fn play_words(rt: &(impl Print + Files + AllocGlobal)) -> io::Result<bool> {
    play_file(rt, &mut Words { alloc: rt.alloc() }, "view_words.txt")
}

/// The bytes of the file of this name; None where there is none.
fn find<'r>(files: &'r [Row], name: &str) -> Option<&'r [u8]> {
    for row in files {
        if row.text(0) == name {
            return Some(row.bytes(1));
        }
    }
    None
}

/// Rows of logs over these engine's files.
#[derive(Clone, Copy)]
struct Logs<'a> {
    alloc: Global,
    journals: &'a [Row],
}

impl Plays for Logs<'_> {
    fn play(&mut self, row: &Row) -> Result<Came, AllocError> {
        let disk = find(self.journals, row.text(1));
        let named = find(self.journals, row.text(2));
        let (read, call) = (row.whole(3), row.whole(4));
        Ok(Came::Said(answer_about(self.alloc, row.text(0), disk, named, read, call)?))
    }
}

/// Plays the rows of logs; true where all agreed.
fn play_logs(rt: &(impl Print + Files + AllocGlobal)) -> io::Result<bool> {
    let journals = read_file(rt, "view_journals.txt")?;
    let mut logs = Logs {
        alloc: rt.alloc(),
        journals: journals.as_slice(),
    };
    play_file(rt, &mut logs, "view_logs.txt")
}

/// Rows of books over these playbooks.
#[derive(Clone, Copy)]
struct Books<'a> {
    alloc: Global,
    books: &'a [Row],
}

impl Plays for Books<'_> {
    fn play(&mut self, row: &Row) -> Result<Came, AllocError> {
        let (read, call) = (row.whole(1), row.whole(2));
        Ok(Came::Said(answer(self.alloc, row.text(0), self.books, read, call)?))
    }
}

/// Plays the rows of this file over the playbooks of this list; true where all agreed.
fn play_books(rt: &(impl Print + Files + AllocGlobal), list: &str, name: &str) -> io::Result<bool> {
    let playbooks = read_file(rt, list)?;
    let mut books = Books {
        alloc: rt.alloc(),
        books: playbooks.as_slice(),
    };
    play_file(rt, &mut books, name)
}

/// Plays all rows of the program that only looks; true where all agreed.
pub(crate) fn play_views(rt: &(impl Print + Files + AllocGlobal)) -> io::Result<bool> {
    let words = play_words(rt)?;
    let logs = play_logs(rt)?;
    let graphs = play_books(rt, "view_books.txt", "view_graphs.txt")?;
    let told = play_books(rt, "view_playbooks.txt", "view_told.txt")?;
    Ok(words && logs && graphs && told)
}
