// Lists of playbooks.
ghost use Rattle.std.specs.Prelude.{◌≡◌, [], ◌∷◌, ◌++◌, OnOk, OnErr};

use cacao_book::Book;
use std::alloc::{AllocError, Global};
use std::marker::Model;

/// Playbooks in order: the one that is run first, then those that it may call.
pub struct Books {
    items: Vec<Book>,
}

// (by hand, and not by derive: so a drop is one call in the proofs of all who own one)
impl Drop for Books {
    fn drop(self) {
        let Self { items: _ } = self;
    }
}

impl Model for Books {
    ghost use Rattle.std.specs.Prelude.{List};
    ghost use Rattle.cacao_book.specs.declared.books.Book.{Book};

    ghost Value = { List Book };

    ghost view = { λ books. books.items.items };
}

impl Books {
    /// No playbooks. It takes no memory.
    pub fn new(alloc: Global) -> Books
        ensures { result ≡ [] }
    {
        Books {
            items: Vec::new(alloc),
        }
    }

    /// The list over these playbooks, which it keeps. It takes no memory.
    pub fn from_vec(items: Vec<Book>) -> Books
        ensures { result ≡ items.items }
    {
        Books { items }
    }

    /// Gives the playbooks back. It takes no memory.
    pub fn into_vec(self) -> Vec<Book>
        ensures { result.items ≡ self }
    {
        let Books { items } = self;
        items
    }

    /// The playbooks in order. It takes no memory.
    pub fn as_slice(&self) -> &[Book]
        ensures { result.now ≡ self.now }
    {
        self.items.as_slice()
    }

    /// Adds a playbook at the end.
    pub fn push(&mut self, book: Book) -> Result<(), AllocError>
        ensures ok { OnOk result (self.new ≡ self.old ++ book ∷ []) }
        ensures err { OnErr result (self.new ≡ self.old) }
    {
        self.items.push(book)?;
        Ok(())
    }
}
