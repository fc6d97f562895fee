// Playbooks that break no rule.
use crate::books::Books;
use crate::breaks::Mode;
use cacao_book::{Book, Step};
use cacao_check_regions::{Regions, Seen, Survey, seen_at_key, stands_in, step_with};
use cacao_check_steps::Parts;
use cacao_vars::Name;
use std::alloc::{AllocError, Global};
use std::marker::Model;

/// Playbooks that break no rule of their mode, with what was read of their steps and with the tables of their regions. Books
/// have numbers from 0, and a step is named by its key.
pub struct Checked {
    books: Books,
    mode: Mode,
    surveys: Vec<Survey>,
    regions: Vec<Regions>,
}

// (by hand, and not by derive: so a drop is one call in the proofs of all who own one)
impl Drop for Checked {
    fn drop(self) {
        let Self {
            books: _,
            mode: _,
            surveys: _,
            regions: _,
        } = self;
    }
}

impl Model for Checked {
    ghost use Rattle.cacao_check.specs.Checks.{Checks};

    ghost Value = { Checks };

    ghost use Rattle.cacao_check.specs.Tables.{HasTables};

    ghost view = { λ c. record { books = c.books; mode = c.mode } };

    ghost invariant = { λ c. HasTables c.books c.mode c.surveys.items c.regions.items };
}

impl Checked {
    ghost use Rattle.std.specs.Prelude.{◌≡◌, ◌↔◌, ◌≤◌, ◌<◌, Option, Some, IsTrue, IfOk, length, slice_get};
    ghost use Rattle.std.specs.Option.{option_copied};
    ghost use Rattle.cacao_book.specs.declared.books.Book.{Book};
    ghost use Rattle.cacao_book.specs.declared.steps.Step.{Step};
    ghost use Rattle.cacao_book.specs.Steps.{step_with as step_under};
    ghost use Rattle.cacao_check.specs.Sense.{IsSound};
    ghost use Rattle.cacao_check_steps.specs.Parts.{ReadsStep};
    ghost use Rattle.cacao_check.specs.Tables.{HasTables};
    ghost use Rattle.cacao_check_regions.specs.Looking.{StandsIn, ListsSights};

    // Playbooks that are known to break no rule, with their tables.
    pub(crate) fn new(
        books: Books,
        mode: Mode,
        surveys: Vec<Survey>,
        regions: Vec<Regions>,
    ) -> Checked
        requires { HasTables books mode surveys.items regions.items }
        ensures books { result.books ≡ books }
        ensures mode { result.mode ≡ mode }
    {
        Checked {
            books,
            mode,
            surveys,
            regions,
        }
    }

    /// The books in order. They break no rule of the mode. It takes no memory.
    pub fn books(&self) -> &[Book]
        ensures books { result.now ≡ self.now.books }
        ensures some { 1 ≤ length self.now.books }
        ensures few { length self.now.books ≤ 16 }
        ensures sound { IsSound self.now.books self.now.mode }
    {
        self.books.as_slice()
    }

    /// What the books were checked for. It takes no memory.
    pub fn mode(&self) -> Mode
        ensures { result ≡ self.now.mode }
    {
        self.mode
    }

    /// A book by its number. It takes no memory.
    pub fn book(&self, n: u32) -> &Book
        requires { n < length self.now.books }
        ensures { slice_get self.now.books n ≡ Some result.now }
    {
        &self.books.as_slice()[n as usize]
    }

    /// The step of a book with a key; None where the book has none. It takes no memory.
    pub fn step(&self, book: u32, key: &str) -> Option<&Step>
        requires { book < length self.now.books }
        ensures { (b : Book) → slice_get self.now.books book ≡ Some b → option_copied result ≡ step_under b.steps key.now }
    {
        step_with(&self.books.as_slice()[book as usize], key)
    }

    /// What was read of the step at a place of a book. It takes no memory.
    pub fn parts(&self, book: u32, place: u32) -> &Parts
        requires book { book < length self.now.books }
        requires place { (b : Book) → slice_get self.now.books book ≡ Some b → place < length b.steps }
        ensures { (b : Book) (step : Step) → slice_get self.now.books book ≡ Some b → slice_get b.steps place ≡ Some step → ReadsStep self.now.books b step result.now }
    {
        &self.surveys[book as usize].parts[place as usize]
    }

    /// Whether the step with a key stands in the region of the control step with another key, or in the main region where that
    /// is None (CACAO 2.0, section 4). A key that names no step of the book stands in none, and a step without branches has an empty region. It takes no memory.
    pub fn in_region(&self, book: u32, control: Option<&str>, key: &str) -> bool
        requires { book < length self.now.books }
        ensures { (b : Book) → slice_get self.now.books book ≡ Some b → IsTrue result ↔ StandsIn b (option_copied control.entry) key.now }
    {
        let at = book as usize;
        stands_in(&self.books.as_slice()[at], &self.regions[at], control, key)
    }

    /// What the step with a key may see of a name: its possible nearest declarations, and that there may be none. Nothing, where
    /// the key names no step.
    pub fn seen(&self, alloc: Global, book: u32, key: &str, name: &Name) -> Result<Seen, AllocError>
        requires { book < length self.now.books }
        ensures { IfOk result (λ seen. (b : Book) → slice_get self.now.books book ≡ Some b → ListsSights b key.now name.now seen) }
    {
        let at = book as usize;
        let seen = seen_at_key(
            alloc,
            &self.books.as_slice()[at],
            &self.surveys[at].chart,
            key,
            name,
        )?;
        Ok(seen)
    }
}
