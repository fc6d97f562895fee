// What the program is called on, from which it is made as often as wanted.
use crate::program::Program;
use std::alloc::{AllocError, Global};
use test_session_plays::Outside;

/// A file of the shelf.
#[derive(Drop)]
struct Shelved {
    name: String,
    bytes: Vec<u8>,
}

/// A file of the disk.
#[derive(Drop)]
struct Filled {
    number: u8,
    bytes: Vec<u8>,
}

/// How the site does, the files of the shelf, and those that the disk has before the first call, in the order in which they are written.
#[derive(Drop)]
pub struct Scene {
    alloc: Global,
    outside: Outside,
    shelved: Vec<Shelved>,
    filled: Vec<Filled>,
}

impl Scene {
    /// The scene without files.
    pub fn new(alloc: Global, outside: Outside) -> Scene {
        Scene {
            alloc,
            outside,
            shelved: Vec::new(alloc),
            filled: Vec::new(alloc),
        }
    }

    /// Puts a file on the shelf.
    pub fn add(&mut self, name: &str, text: &[u8]) -> Result<(), AllocError> {
        let name = String::from_str(self.alloc, name)?;
        let bytes = text.to_vec(self.alloc)?;
        self.shelved.push(Shelved { name, bytes })?;
        Ok(())
    }

    /// Puts a file on the disk.
    pub fn fill(&mut self, number: u8, bytes: &[u8]) -> Result<(), AllocError> {
        let bytes = bytes.to_vec(self.alloc)?;
        self.filled.push(Filled { number, bytes })?;
        Ok(())
    }

    /// The program on this shelf and this disk.
    pub fn program(&self) -> Result<Program, AllocError> {
        let mut program = Program::new(self.alloc, self.outside)?;
        for file in &self.shelved {
            program.add(file.name.as_str(), file.bytes.as_slice())?;
        }
        self.fill_in(&mut program);
        Ok(program)
    }

    /// Writes the files of the disk.
    fn fill_in(&self, program: &mut Program) {
        for file in &self.filled {
            program.fill(file.number, file.bytes.as_slice());
        }
    }
}
