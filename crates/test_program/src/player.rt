// The program while rows are played.
use crate::answers::{commands, parcel};
use crate::pieces::joined;
use crate::plans::outside;
use crate::texts::Texts;
use std::alloc::{AllocError, Global};
use std::mem;
use std::str::from_utf8;
use test_program_plays::{Answer, Program, Scene};
use test_rows::Row;
use test_session_plays::{fair, spelled_out};

/// The texts that were named, the program, and what a new one is called on.
#[derive(Drop)]
pub(crate) struct Player {
    pub(crate) alloc: Global,
    pub(crate) texts: Texts,
    pub(crate) scene: Scene,
    pub(crate) program: Program,
}

/// The number of a file of the disk; nothing where it is none.
pub(crate) fn disk_file(row: &Row, field: usize) -> Option<u8> {
    match row.text(field).parse::<u8>() {
        Ok(number) => Some(number),
        Err(_) => None,
    }
}

impl Player {
    /// Before the first row.
    pub(crate) fn new(alloc: Global) -> Result<Player, AllocError> {
        let scene = Scene::new(alloc, fair());
        let program = scene.program()?;
        Ok(Player {
            alloc,
            texts: Texts::new(alloc),
            scene,
            program,
        })
    }

    /// A new shelf and a new site; false where the fields say no plan.
    pub(crate) fn begin(&mut self, row: &Row) -> Result<bool, AllocError> {
        let Some(outside) = outside(row, 1) else {
            return Ok(false);
        };
        self.scene = Scene::new(self.alloc, outside);
        self.program = self.scene.program()?;
        Ok(true)
    }

    /// The bytes of the fields from this number on.
    fn rest(&self, row: &Row, first: usize) -> Result<Option<Vec<u8>>, AllocError> {
        joined(self.alloc, &self.texts, row, first, row.count())
    }

    /// Names a text.
    pub(crate) fn name_text(&mut self, row: &Row) -> Result<bool, AllocError> {
        let Some(bytes) = self.rest(row, 2)? else {
            return Ok(false);
        };
        self.texts.add(row.text(1), bytes)?;
        Ok(true)
    }

    /// Puts a file on the shelf.
    pub(crate) fn add(&mut self, row: &Row) -> Result<bool, AllocError> {
        let Some(bytes) = self.rest(row, 2)? else {
            return Ok(false);
        };
        self.scene.add(row.text(1), bytes.as_slice())?;
        self.program.add(row.text(1), bytes.as_slice())?;
        Ok(true)
    }

    /// Names the text of a playbook, which is spelled out.
    pub(crate) fn name_book(&mut self, row: &Row) -> Result<bool, AllocError> {
        let Some(bytes) = self.rest(row, 2)? else {
            return Ok(false);
        };
        let Ok(text) = from_utf8(bytes.as_slice()) else {
            return Ok(false);
        };
        let whole = spelled_out(self.alloc, text)?;
        self.texts.add(row.text(1), whole.into_bytes())?;
        Ok(true)
    }

    /// Writes a file of the disk.
    pub(crate) fn fill(&mut self, row: &Row) -> Result<bool, AllocError> {
        let Some(number) = disk_file(row, 1) else {
            return Ok(false);
        };
        let Some(bytes) = self.rest(row, 2)? else {
            return Ok(false);
        };
        self.scene.fill(number, bytes.as_slice())?;
        Ok(self.program.fill(number, bytes.as_slice()))
    }

    /// Lets a read of the shelf fail.
    pub(crate) fn fail_read(&mut self, row: &Row) -> bool {
        match row.text(1).parse::<u32>() {
            Ok(number) => {
                self.program.fail_read(number);
                true
            }
            Err(_) => false,
        }
    }

    /// A number, or none where a dash stands.
    fn maybe(row: &Row, field: usize) -> Option<u32> {
        match row.text(field).parse::<u32>() {
            Ok(number) => Some(number),
            Err(_) => None,
        }
    }

    /// Adds a link for the next call.
    pub(crate) fn link(&mut self, row: &Row) -> Result<bool, AllocError> {
        let Ok(room) = row.text(1).parse::<u64>() else {
            return Ok(false);
        };
        let Some(bytes) = self.rest(row, 3)? else {
            return Ok(false);
        };
        self.program
            .add_link(bytes.as_slice(), room, Player::maybe(row, 2))?;
        Ok(true)
    }

    /// Lets a call of the peers fail.
    pub(crate) fn fail_peers(&mut self, row: &Row) -> Result<bool, AllocError> {
        match row.text(1).parse::<u32>() {
            Ok(number) => {
                self.program.fail_peers(number)?;
                Ok(true)
            }
            Err(_) => Ok(false),
        }
    }

    /// Lets a crash come that is picked so.
    pub(crate) fn crash(&mut self, row: &Row) -> Result<bool, AllocError> {
        let Ok(choice) = row.text(1).parse::<u64>() else {
            return Ok(false);
        };
        let Some(outside) = outside(row, 2) else {
            return Ok(false);
        };
        let blank = Program::new(self.alloc, fair())?;
        let stopped = mem::replace(&mut self.program, blank);
        self.program = stopped.crash(choice, outside)?;
        Ok(true)
    }

    /// The words of a row, from this field on and before its last one.
    pub(crate) fn words(&self, row: &Row, first: usize) -> Result<Option<String>, AllocError> {
        let last = row.count().saturating_sub(1);
        let Some(bytes) = joined(self.alloc, &self.texts, row, first, last)? else {
            return Ok(None);
        };
        match from_utf8(bytes.as_slice()) {
            Ok(text) => Ok(Some(String::from_str(self.alloc, text)?)),
            Err(_) => Ok(None),
        }
    }

    /// Calls the program with the words of a row.
    pub(crate) fn call(&mut self, row: &Row) -> Result<Option<Answer>, AllocError> {
        match self.words(row, 1)? {
            Some(words) => Ok(Some(self.program.call(words.as_str())?)),
            None => Ok(None),
        }
    }

    /// Calls the program with the words of a row, on a new shelf and a new site with the same files.
    pub(crate) fn call_anew(&mut self, row: &Row) -> Result<Option<Answer>, AllocError> {
        self.program = self.scene.program()?;
        self.call(row)
    }

    /// Whether the bytes of a file of the disk are the text of this name.
    pub(crate) fn is_same(&mut self, row: &Row) -> Result<Option<bool>, AllocError> {
        let Some(number) = disk_file(row, 1) else {
            return Ok(None);
        };
        let bytes = self.program.file(number)?;
        match self.texts.get(row.text(2)) {
            Some(text) => Ok(Some(bytes.as_slice() == text)),
            None => Ok(None),
        }
    }

    /// A parcel that was put.
    pub(crate) fn parcel(&self, row: &Row) -> Result<Option<String>, AllocError> {
        let Ok(number) = row.text(1).parse::<u32>() else {
            return Ok(None);
        };
        match self.program.parcel(number as usize) {
            Some(put) => Ok(Some(parcel(self.alloc, put)?)),
            None => Ok(None),
        }
    }

    /// How many commands were put.
    pub(crate) fn commands(&self) -> u32 {
        commands(&self.program)
    }
}
