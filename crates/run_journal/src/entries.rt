// A list of entries.
ghost use Rattle.std.specs.Prelude.{◌≡◌, length};

use cacao_site::Bytes;
use std::marker::Model;

/// An entry of an image.
#[derive(Drop)]
pub struct Entry {
    /// The place of its gate, in bytes from the start of the image.
    pub place: u64,
    pub bytes: Bytes,
}

/// The entries of an image, in order.
#[derive(Drop)]
pub struct Entries {
    items: Vec<Entry>,
}

impl Model for Entries {
    ghost use Rattle.std.specs.Prelude.{List};
    ghost use Rattle.run_journal.specs.declared.entries.Entry.{Entry};

    ghost Value = { List Entry };

    ghost view = { λ entries. entries.items.items };
}

impl Entries {
    /// The list of the vector's entries. Takes no memory.
    pub fn from_vec(items: Vec<Entry>) -> Entries
        ensures { result ≡ items.items }
    {
        Entries { items }
    }

    /// The entries in order.
    pub fn as_slice(&self) -> &[Entry]
        ensures { result.now ≡ self.now }
    {
        self.items.as_slice()
    }

    /// How many entries there are.
    pub fn len(&self) -> usize
        ensures { result ≡ length self.now }
    {
        self.items.len()
    }

    /// The vector of the entries. Takes no memory.
    pub fn into_vec(self) -> Vec<Entry>
        ensures { result.items ≡ self }
    {
        let Entries { items } = self;
        items
    }
}
