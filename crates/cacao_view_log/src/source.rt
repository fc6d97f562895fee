// Where the entries of an engine's file are taken from.
ghost use Rattle.std.specs.Prelude.{◌≡◌, ◌<◌, [], length, slice_index_or, take};
ghost use Rattle.run_journal.specs.Layout.{front};
ghost use Rattle.cacao_view_log.specs.Sources.{IsWhole, items_of};

use run_journal::{Entries, Journal};

/// The entries of an engine's file.
#[derive(Clone, Copy)]
pub enum Source<'a> {
    /// Those that a journal read from a disk.
    Journal(&'a Journal),
    /// Those of an image.
    Entries(&'a Entries),
}

impl<'a> Source<'a> {
    /// How many entries there are.
    pub fn count(&self) -> u32
        requires { IsWhole self.now }
        ensures value { result ≡ length (items_of self.now) }
        ensures fits { length (front (items_of self.now)) < 67_108_864 }
    {
        match *self {
            Source::Journal(journal) => journal.count(),
            Source::Entries(entries) => entries.len() as u32,
        }
    }

    /// The bytes of an entry, by its number from 0.
    pub fn entry(&self, n: u32) -> &[u8]
        requires { n < length (items_of self.now) }
        ensures { result.now ≡ slice_index_or (items_of self.now) n [] }
    {
        match *self {
            Source::Journal(journal) => journal.entry(n),
            Source::Entries(entries) => entries.as_slice()[n as usize].bytes.as_slice(),
        }
    }

    /// The place of the gate of an entry, in bytes from the start of the file.
    pub fn place(&self, n: u32) -> u64
        requires whole { IsWhole self.now }
        requires there { n < length (items_of self.now) }
        ensures { result ≡ length (front (take n (items_of self.now))) }
    {
        match *self {
            Source::Journal(journal) => journal.place(n),
            Source::Entries(entries) => entries.as_slice()[n as usize].place,
        }
    }
}
