// Lines that are to be said.
use cacao_site::Bytes;
use std::alloc::{AllocError, Global};
use std::marker::Model;

/// Lines in order, each with its line feed.
#[derive(Drop)]
pub struct Lines {
    items: Vec<Bytes>,
}

impl Model for Lines {
    ghost use Rattle.std.specs.Prelude.{List, ℕ};

    ghost Value = { List (List ℕ) };

    ghost view = { λ lines. lines.items.items };
}

impl Lines {
    ghost use Rattle.std.specs.Prelude.{◌≡◌, ◌++◌, ◌∷◌, [], OnOk, length, string_bytes};

    /// No lines. It takes no memory.
    pub fn new(alloc: Global) -> Lines
        ensures { result ≡ [] }
    {
        Lines {
            items: Vec::new(alloc),
        }
    }

    /// These lines. It takes no memory.
    pub fn from_vec(items: Vec<Bytes>) -> Lines
        ensures { result ≡ items.items }
    {
        Lines { items }
    }

    /// One line more, behind the others.
    pub fn push(&mut self, line: Vec<u8>) -> Result<(), AllocError>
        ensures { OnOk result (self.new ≡ self.old ++ line.items ∷ []) }
    {
        self.items.push(Bytes::from_vec(line))?;
        Ok(())
    }

    /// The same of a text.
    pub fn push_text(&mut self, line: String) -> Result<(), AllocError>
        ensures { OnOk result (self.new ≡ self.old ++ string_bytes line ∷ []) }
    {
        self.push(line.into_bytes())?;
        Ok(())
    }

    /// The lines in order. It takes no memory.
    pub fn as_slice(&self) -> &[Bytes]
        ensures { result.now ≡ self.now }
    {
        self.items.as_slice()
    }

    /// How many there are. It takes no memory.
    pub fn len(&self) -> usize
        ensures { result ≡ length self.now }
    {
        self.items.len()
    }
}
