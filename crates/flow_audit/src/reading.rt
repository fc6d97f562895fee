// The records and acts of the files.
ghost use Rattle.std.specs.Prelude.{◌≡◌, ◌<◌, length, IfOk, IfErr};
ghost use Rattle.run_journal.specs.Image.{ArePlaced, bytes_of};
ghost use Rattle.run_journal.specs.Layout.{Stands};
ghost use Rattle.run_records.specs.Reading.{act_of, record_of};
ghost use Rattle.run_records.specs.Ranges.{ActInRange, InRange};
ghost use Rattle.flow_audit.specs.Files.{gate_of, image_of};
ghost use Rattle.flow_audit.specs.Parts.{AreFilters, IsFileOf, StopsFile, StopsImage, StopsReading};

use crate::files::Files17;
use crate::verdict::Stop;
use run_journal::{Entries, ImageError, read_image};
use run_records::{Act, Record, read_act, read_record};
use std::alloc::Global;

/// The entries of file 0, and the record of each.
#[derive(Drop)]
pub(crate) struct RecordFile {
    pub(crate) entries: Entries,
    pub(crate) records: Vec<Record>,
}

/// The entries of a filter's file, and the act of each.
#[derive(Drop)]
pub(crate) struct ActFile {
    pub(crate) entries: Entries,
    pub(crate) acts: Vec<Act>,
}

/// All files.
#[derive(Drop)]
pub(crate) struct ReadFiles {
    pub(crate) journal: RecordFile,
    pub(crate) filters: Vec<ActFile>,
}

/// The place of the gate of an entry, in bytes.
pub(crate) fn gate(entries: &Entries, n: usize) -> u64
    requires placed { ArePlaced entries.now }
    requires there { n < length entries.now }
    ensures { result ≡ gate_of (bytes_of entries.now) n }
{
    entries.as_slice()[n].place
}

/// The entries of a file.
fn entries_of(alloc: Global, file: u8, image: &[u8]) -> Result<Entries, Stop>
    ensures stands { IfOk result (λ entries. Stands image.now (bytes_of entries)) }
    ensures placed { IfOk result ArePlaced }
    ensures stops { IfErr result (StopsImage file image.now) }
{
    match read_image(alloc, image) {
        Ok(entries) => Ok(entries),
        Err(ImageError::Damaged { place }) => Err(Stop::No { file, place }),
        Err(ImageError::Memory) => Err(Stop::Memory),
    }
}

fn read_records(alloc: Global, image: &[u8]) -> Result<RecordFile, Stop>
    ensures ok { IfOk result (λ file. IsFileOf record_of InRange image.now file.entries file.records.items) }
    ensures stops { IfErr result (StopsFile record_of 0 image.now) }
{
    let entries = match entries_of(alloc, 0, image) {
        Ok(entries) => entries,
        Err(stop) => return Err(stop),
    };
    let mut records = Vec::new(alloc);
    for entry in entries.as_slice() {
        match read_record(alloc, entry.bytes.as_slice())? {
            Some(item) => records.push(item)?,
            None => {
                return Err(Stop::No {
                    file: 0,
                    place: entry.place,
                });
            }
        }
    }
    Ok(RecordFile { entries, records })
}

fn read_acts(alloc: Global, file: u8, image: &[u8]) -> Result<ActFile, Stop>
    ensures ok { IfOk result (λ read. IsFileOf act_of ActInRange image.now read.entries read.acts.items) }
    ensures stops { IfErr result (StopsFile act_of file image.now) }
{
    let entries = match entries_of(alloc, file, image) {
        Ok(entries) => entries,
        Err(stop) => return Err(stop),
    };
    let mut acts = Vec::new(alloc);
    for entry in entries.as_slice() {
        match read_act(alloc, entry.bytes.as_slice())? {
            Some(act) => acts.push(act)?,
            None => {
                return Err(Stop::No {
                    file,
                    place: entry.place,
                });
            }
        }
    }
    Ok(ActFile { entries, acts })
}

/// Reads all files, the least first.
pub(crate) fn read_files(alloc: Global, files: &Files17) -> Result<ReadFiles, Stop>
    ensures journal { IfOk result (λ read.
        IsFileOf record_of InRange (image_of files.now 0) read.journal.entries read.journal.records.items) }
    ensures filters { IfOk result (λ read. AreFilters files.now 16 read.filters.items) }
    ensures stops { IfErr result (StopsReading files.now) }
{
    let journal = match read_records(alloc, files.file(0)) {
        Ok(journal) => journal,
        Err(stop) => return Err(stop),
    };
    let mut filters = Vec::new(alloc);
    for agent in 1..17u8 {
        match read_acts(alloc, agent, files.file(agent)) {
            Ok(file) => filters.push(file)?,
            Err(stop) => return Err(stop),
        }
    }
    Ok(ReadFiles { journal, filters })
}
