// What the files of a rack hold.
ghost use Rattle.std.specs.Prelude.{◌≤◌};

use crate::books::Books;
use crate::calls::Run;
use crate::counts::add;
use cacao_site::{Bytes, Disk, RunView};
use cacao_site_memory::MemorySite;
use flow_engine::{Engine, EngineError};
use run_journal::{Entry, ImageError, read_image};
use run_records::{Act, Record, read_act, read_record};
use std::alloc::{AllocError, Global};

/// An act, and the filter that has it.
#[derive(Drop)]
pub(crate) struct KeptAct {
    pub(crate) agent: u8,
    pub(crate) act: Act,
}

/// The journals of runs, by place, with their engines and records; the files of filters 1 to 16, and all acts.
pub(crate) struct Look {
    pub(crate) journals: Vec<Bytes>,
    pub(crate) engines: Vec<Engine>,
    pub(crate) records: Vec<Vec<Record>>,
    pub(crate) filters: Vec<Bytes>,
    pub(crate) acts: Vec<KeptAct>,
}

// (by hand, and not by derive: so a drop is one call in the proofs of all who own one)
impl Drop for Look {
    fn drop(self) {
        let Self {
            journals: _,
            engines: _,
            records: _,
            filters: _,
            acts: _,
        } = self;
    }
}

/// The file of the run at a place.
fn file_of(place: u8) -> u8
    ensures { result ≤ 31 }
{
    if place == 0 {
        return 0;
    }
    16 + place.min(15)
}

/// Reads a file to its end; false where a call failed, or it has a million bytes or more.
fn read_file(site: &mut MemorySite, file: u8, bytes: &mut Vec<u8>) -> Result<bool, AllocError>
    requires { file ≤ 31 }
{
    let mut buffer = [0u8; 4096];
    for block in 0..256u64 {
        let Ok(read) = site.read(file, block * 4096, &mut buffer) else {
            return Ok(false);
        };
        bytes.extend_from_slice(&buffer[..read as usize])?;
        if read < 4096 {
            return Ok(true);
        }
    }
    Ok(false)
}

/// Adds the bytes of a file; false where it can't be read.
fn add_file(
    alloc: Global,
    files: &mut Vec<Bytes>,
    file: u8,
    site: &mut MemorySite,
) -> Result<bool, AllocError>
    requires { file ≤ 31 }
{
    let mut bytes = Vec::new(alloc);
    let is_read = read_file(site, file, &mut bytes)?;
    files.push(Bytes::from_vec(bytes))?;
    Ok(is_read)
}

/// Adds the records of entries; false where one is none.
fn add_records(
    alloc: Global,
    records: &mut Vec<Record>,
    entries: &[Entry],
) -> Result<bool, AllocError> {
    for entry in entries {
        match read_record(alloc, entry.bytes.as_slice())? {
            Some(record) => records.push(record)?,
            None => return Ok(false),
        }
    }
    Ok(true)
}

/// Adds the acts of a filter's entries; false where one is none.
fn add_acts(
    alloc: Global,
    acts: &mut Vec<KeptAct>,
    agent: u8,
    entries: &[Entry],
) -> Result<bool, AllocError> {
    for entry in entries {
        match read_act(alloc, entry.bytes.as_slice())? {
            Some(act) => acts.push(KeptAct { agent, act })?,
            None => return Ok(false),
        }
    }
    Ok(true)
}

impl Look {
    /// Nothing was looked at.
    pub(crate) fn new(alloc: Global) -> Look {
        Look {
            journals: Vec::new(alloc),
            engines: Vec::new(alloc),
            records: Vec::new(alloc),
            filters: Vec::new(alloc),
            acts: Vec::new(alloc),
        }
    }

    /// Adds the records of the last journal; false where it has none such.
    fn add_journal(&mut self, alloc: Global) -> Result<bool, AllocError> {
        let Some(journal) = self.journals.last() else {
            return Ok(false);
        };
        match read_image(alloc, journal.as_slice()) {
            Ok(entries) => {
                self.records.push(Vec::new(alloc))?;
                match self.records.last_mut() {
                    Some(records) => add_records(alloc, records, entries.as_slice()),
                    None => Ok(false),
                }
            }
            Err(ImageError::Memory) => Err(AllocError),
            Err(_) => Ok(false),
        }
    }

    /// Opens the engine of a run over its file; false where it refuses.
    fn add_engine(
        &mut self,
        alloc: Global,
        books: &Books,
        run: Run,
        place: u8,
        site: &mut MemorySite,
    ) -> Result<bool, AllocError>
        requires { place ≤ 15 }
    {
        let Some(setup) = books.setup(run.book)? else {
            return Ok(false);
        };
        let mut view = RunView::new(site, place);
        match Engine::open_on(alloc, &mut view, setup, run.number) {
            Ok(engine) => {
                self.engines.push(engine)?;
                Ok(true)
            }
            Err(EngineError::Memory) => Err(AllocError),
            Err(_) => Ok(false),
        }
    }

    /// Looks at the journal of a run; false where it is none.
    fn add_run(
        &mut self,
        alloc: Global,
        books: &Books,
        run: Run,
        place: u8,
        site: &mut MemorySite,
    ) -> Result<bool, AllocError>
        requires { place ≤ 15 }
    {
        if !add_file(alloc, &mut self.journals, file_of(place), site)?
            || !self.add_journal(alloc)?
        {
            return Ok(false);
        }
        self.add_engine(alloc, books, run, place, site)
    }

    /// Looks at the file of a filter; false where it is none.
    fn add_filter(
        &mut self,
        alloc: Global,
        agent: u8,
        site: &mut MemorySite,
    ) -> Result<bool, AllocError>
        requires { agent ≤ 16 }
    {
        if !add_file(alloc, &mut self.filters, agent, site)? {
            return Ok(false);
        }
        let Some(file) = self.filters.last() else {
            return Ok(false);
        };
        match read_image(alloc, file.as_slice()) {
            Ok(entries) => add_acts(alloc, &mut self.acts, agent, entries.as_slice()),
            Err(ImageError::Memory) => Err(AllocError),
            Err(_) => Ok(false),
        }
    }

    /// Looks at all files; false where one of them is damaged, or an engine refuses its journal.
    pub(crate) fn add_all(
        &mut self,
        alloc: Global,
        books: &Books,
        runs: &[Run],
        site: &mut MemorySite,
    ) -> Result<bool, AllocError> {
        for place in 0..runs.len().min(16) as u8 {
            if !self.add_run(alloc, books, runs[place as usize], place, site)? {
                return Ok(false);
            }
        }
        for agent in 1..17u8 {
            if !self.add_filter(alloc, agent, site)? {
                return Ok(false);
            }
        }
        Ok(true)
    }

    /// How many records the run at a place has.
    pub(crate) fn count(&self, place: usize) -> u32 {
        match self.engines.get(place) {
            Some(engine) => engine.count(),
            None => 0,
        }
    }

    /// How many records each run has, by place.
    pub(crate) fn counts(&self, alloc: Global) -> Result<Vec<u32>, AllocError> {
        let mut counts = Vec::new(alloc);
        for engine in self.engines.as_slice() {
            counts.push(engine.count())?;
        }
        Ok(counts)
    }

    /// How many records all runs have.
    pub(crate) fn all_records(&self) -> u64 {
        let mut all = 0u64;
        for engine in self.engines.as_slice() {
            add(&mut all, u64::from(engine.count()));
        }
        all
    }

    /// How many records of all runs are Expires.
    pub(crate) fn expired(&self) -> u64 {
        let mut count = 0u64;
        for records in self.records.as_slice() {
            for record in records.as_slice() {
                if let Record::Expire { .. } = record {
                    add(&mut count, 1);
                }
            }
        }
        count
    }

    /// A record of the run at a place.
    pub(crate) fn record(&self, place: usize, number: u32) -> Option<&Record> {
        match self.records.get(place) {
            Some(records) => records.get(number as usize),
            None => None,
        }
    }
}
