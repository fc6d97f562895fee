// A file that is read while another program may lengthen it.
ghost use Rattle.std.specs.Prelude.{◌≡◌, ◌+◌, ◌<◌, ◌≤◌, min, vec_len, OnOk};

use crate::gates::{HEADER, closed_gate};
use std::alloc::{AllocError, Global};
use std::fs::OpenFile;
use std::io;
use std::io::{Read, Seek, SeekFrom};

/// The bytes of room that are made at a time where a file has more than was told. They are few, since room is made anew
/// each time that a journal has grown.
const STEP: u64 = 65_536;

/// An open file and what was read of it, from its front on until no byte came.
#[derive(Drop)]
pub(crate) struct Growing<F> {
    file: F,
    bytes: Vec<u8>,
    // Whether it is a regular file: no other grows.
    is_file: bool,
    // Where it is a journal, the place of its closed gate.
    gate: Option<usize>,
}

impl<F: Read + Seek + OpenFile + Drop> Growing<F> {
    /// Reads the file, at most `most` bytes of it and one more.
    ///
    /// The room for them is made at once, by the length that the system tells, and one byte more to see the end. A file
    /// that turns out to be longer, as a pipe, gets more room as it comes.
    pub(crate) fn read(
        alloc: Global,
        mut file: F,
        most: u32,
    ) -> Result<io::Result<Growing<F>>, AllocError> {
        let (told, is_file) = match file.metadata() {
            Ok(metadata) => (metadata.len(), metadata.is_file()),
            Err(error) => return Ok(Err(error)),
        };
        let mut bytes = vec![in alloc; 0u8; room_for(told.max(4_096), most)]?;
        match read_on(&mut file, &mut bytes, 0, most)? {
            Ok(()) => {}
            Err(error) => return Ok(Err(error)),
        }
        let gate = closed_gate(bytes.as_slice(), HEADER);
        Ok(Ok(Growing {
            file,
            bytes,
            is_file,
            gate,
        }))
    }

    /// Whether the journal has grown since it was read; then what came is read too.
    ///
    /// Where the answer is no, its list of entries is the one that was read, as it was when this was called. A file that is
    /// no journal, is damaged, or has more than `most` bytes does not grow.
    pub(crate) fn has_grown(&mut self, most: u32) -> Result<io::Result<bool>, AllocError> {
        if self.bytes.len() > most as usize {
            return Ok(Ok(false));
        }
        let from = match self.is_open() {
            Ok(Some(from)) => from,
            Ok(None) => return Ok(Ok(false)),
            Err(error) => return Ok(Err(error)),
        };
        if let Err(error) = self.file.seek(SeekFrom::Start(from as u64)) {
            return Ok(Err(error));
        }
        match read_on(&mut self.file, &mut self.bytes, from, most)? {
            Ok(()) => {}
            Err(error) => return Ok(Err(error)),
        }
        self.gate = closed_gate(self.bytes.as_slice(), from.max(HEADER));
        Ok(Ok(true))
    }

    /// The place from which on the journal is to be read again: that of its gate, where another program has opened it, or
    /// the front, where it had no gate yet.
    fn is_open(&mut self) -> io::Result<Option<usize>> {
        if !self.is_file {
            return Ok(None);
        }
        let Some(gate) = self.gate else {
            let length = self.file.seek(SeekFrom::End(0))?;
            let is_begun = self.bytes.len() <= HEADER && length > self.bytes.len() as u64;
            return Ok(if is_begun { Some(0) } else { None });
        };
        let mut byte = [0u8];
        self.file.seek(SeekFrom::Start(gate as u64))?;
        self.file.read(&mut byte)?;
        Ok(if byte[0] == 1 { Some(gate) } else { None })
    }

    /// What was read: of a file that has more than `most` bytes, more than `most`.
    pub(crate) fn into_bytes(self) -> Vec<u8> {
        self.bytes
    }
}

/// Reads what the file has from its present place on into the buffer from place `from` on, up to `most` bytes in all and
/// one more. The buffer then ends with them.
fn read_on<F: Read>(
    file: &mut F,
    bytes: &mut Vec<u8>,
    from: usize,
    most: u32,
) -> Result<io::Result<()>, AllocError> {
    let mut count = from.min(bytes.len());
    for _ in 0..u64::MAX {
        if count > most as usize {
            break;
        }
        make_room(bytes, count, most)?;
        match file.read(&mut bytes[count..]) {
            Ok(0) => break,
            Ok(more) => count += more,
            Err(error) => return Ok(Err(error)),
        }
    }
    bytes.truncate(count);
    Ok(Ok(()))
}

/// Makes the buffer longer, where these bytes fill it.
fn make_room(buffer: &mut Vec<u8>, count: usize, most: u32) -> Result<(), AllocError>
    requires low { count ≤ most }
    requires fits { count ≤ vec_len buffer.old }
    ensures { OnOk result (count < vec_len buffer.new) }
{
    if count == buffer.len() {
        buffer.resize(room_for(count as u64 + STEP, most), 0)?;
    }
    Ok(())
}

/// The room for this many bytes, of which at most `most` are wanted, and for one more.
fn room_for(bytes: u64, most: u32) -> usize
    ensures { result ≡ min bytes most + 1 }
{
    bytes.min(most as u64) as usize + 1
}
