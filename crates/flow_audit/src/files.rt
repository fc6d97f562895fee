// The bytes of the files.
ghost use Rattle.std.specs.Prelude.{◌≡◌};
ghost use Rattle.flow_audit.specs.Files.{image_of};

use cacao_site::Bytes;
use std::marker::Model;

/// The bytes of files 0 to 16, in order. File 0 is the journal of the run, the others are those of the filters with these
/// numbers. A file that is absent has no bytes.
#[derive(Drop)]
pub struct Files17 {
    files: Vec<Bytes>,
}

impl Model for Files17 {
    ghost use Rattle.std.specs.Prelude.{List, ℕ};

    ghost Value = { List (List ℕ) };

    ghost view = { λ files. files.files.items };
}

impl Files17 {
    /// The files with these bytes; those past the vector's end are absent. Takes no memory.
    pub fn from_vec(files: Vec<Bytes>) -> Files17
        ensures { result ≡ files.items }
    {
        Files17 { files }
    }

    /// The bytes of a file, by its number.
    pub fn file(&self, number: u8) -> &[u8]
        ensures { result.now ≡ image_of self.now number }
    {
        match self.files.get(number as usize) {
            Some(file) => file.as_slice(),
            None => &[],
        }
    }
}
