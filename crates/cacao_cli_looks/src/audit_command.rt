// The command `audit`.
ghost use Rattle.std.specs.Prelude.{◌≡◌, ◌≤◌, [], IfOk, Some, map, replicate};
ghost use Rattle.cacao_cli_words.specs.Commands.{filter_of};
ghost use Rattle.cacao_cli_ends.specs.Asked.{audits};
ghost use Rattle.cacao_cli_looks.specs.Audited.{TellsFiles, verdict_end};
ghost use Rattle.cacao_cli_looks.specs.Command.{ReadsRun};
ghost use Rattle.cacao_cli_ends.specs.Told.{end_of};
ghost use Rattle.cacao_cli_looks.specs.Looking.{Looked};
ghost use Rattle.cacao_cli_ends.specs.Files.{shelf_call};

use crate::file::read_bytes;
use cacao_cli_ends::{End, Limit};
use cacao_cli_words::FilterFile;
use cacao_site::{Bytes, Shelf, Site};
use flow_audit::{AuditError, Files17, Verdict17};
use std::alloc::{AllocError, Global};

/// `audit`: says whether the engine's file and the files of the agents agree, or where they first do not.
pub fn audit<'w, L: Shelf, S: Site>(
    alloc: Global,
    engine: &'w str,
    filters: &[FilterFile<'w>],
    shelf: &mut L,
    _site: &mut S,
) -> End<'w>
    ensures performed { Looked (Some (audits engine.entry.now (map filter_of filters.entry.now)))
        (shelf_call (L.told shelf.old) (L.faults shelf.old) (L.faults shelf.new) (L.reads shelf.old) (L.reads shelf.new))
        (S.view _site.old) (S.view _site.new) (end_of result) }
    ensures files { L.told shelf.new ≡ L.told shelf.old }
    ensures faults { L.faults shelf.old ≤ L.faults shelf.new }
{
    match read_run(alloc, engine, filters, shelf) {
        Ok(files) => compare(alloc, &files),
        Err(end) => end,
    }
}

/// The files of a run, read in the order of the words: file 0 is the engine's, the others have the numbers of their agents.
fn read_run<'w, L: Shelf>(
    alloc: Global,
    engine: &'w str,
    filters: &[FilterFile<'w>],
    shelf: &mut L,
) -> Result<Files17, End<'w>>
    ensures reads { ReadsRun (shelf_call (L.told shelf.old) (L.faults shelf.old) (L.faults shelf.new) (L.reads shelf.old) (L.reads shelf.new))
        engine.entry.now (map filter_of filters.entry.now) result }
    ensures files { L.told shelf.new ≡ L.told shelf.old }
    ensures faults { L.faults shelf.old ≤ L.faults shelf.new }
{
    let mut files = match no_files(alloc) {
        Ok(files) => files,
        Err(_) => return Err(End::NoMemory),
    };
    files[0] = match read_bytes(alloc, engine, Limit::JournalBytes, shelf) {
        Ok(bytes) => bytes,
        Err(end) => return Err(end),
    };
    for file in filters {
        let bytes = match read_bytes(alloc, file.name, Limit::JournalBytes, shelf) {
            Ok(bytes) => bytes,
            Err(end) => return Err(end),
        };
        files[file.agent.number as usize] = bytes;
    }
    Ok(Files17::from_vec(files))
}

/// Seventeen files without bytes.
fn no_files(alloc: Global) -> Result<Vec<Bytes>, AllocError>
    ensures { IfOk result (λ files. files.items ≡ replicate 17 []) }
{
    let mut files = Vec::new(alloc);
    for _ in 0..17u8 {
        files.push(Bytes::from_vec(Vec::new(alloc)))?;
    }
    Ok(files)
}

/// How a call ends that audits these files.
fn compare<'w>(alloc: Global, files: &Files17) -> End<'w>
    ensures { TellsFiles files.entry.now (end_of result) }
{
    match flow_audit::audit(alloc, files) {
        Ok(verdict) => verdict_end(verdict),
        Err(AuditError::Tasks { .. }) => End::Past {
            limit: Limit::TaskCount,
        },
        Err(AuditError::Memory) => End::NoMemory,
    }
}

/// How a call ends that tells this verdict.
fn verdict_end<'w>(verdict: Verdict17) -> End<'w>
    ensures { end_of result ≡ verdict_end verdict }
{
    match verdict {
        Verdict17::Yes { records, acts } => End::Agrees { records, acts },
        Verdict17::No { file, place } => End::Disagrees { file, place },
    }
}
