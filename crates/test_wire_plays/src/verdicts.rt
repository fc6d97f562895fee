// Whether what both ends left agrees.
use crate::around::{Around, site};
use crate::engine::Asked;
use crate::kept::Kept;
use crate::setups::setup;
use cacao_site::Bytes;
use flow_audit::{Files17, Verdict17, audit};
use flow_world::session;
use std::alloc::{AllocError, Global};
use test_session_plays::answers;

/// What an audit finds of file 0 of the engine's end and the others of that of the filters.
#[derive(Clone, Copy)]
pub enum Verdict {
    /// They agree, and hold so many records and acts.
    Agree { records: u32, acts: u32 },
    /// They do not.
    Differ { file: u8, place: u64 },
    /// There is no verdict.
    None,
}

/// The files of both ends.
fn files_of(alloc: Global, engine: &Kept, filters: &Kept) -> Result<Files17, AllocError> {
    let mut files = Vec::new(alloc);
    for number in 0..17u8 {
        let bytes = if number == 0 {
            engine.file(0)
        } else {
            filters.file(number)
        };
        files.push(Bytes::from_slice(alloc, bytes)?)?;
    }
    Ok(Files17::from_vec(files))
}

/// The verdict of an audit.
pub fn judge(alloc: Global, engine: &Kept, filters: &Kept) -> Result<Verdict, AllocError> {
    let files = files_of(alloc, engine, filters)?;
    match audit(alloc, &files) {
        Ok(Verdict17::Yes { records, acts }) => Ok(Verdict::Agree { records, acts }),
        Ok(Verdict17::No { file, place }) => Ok(Verdict::Differ { file, place }),
        Err(_) => Ok(Verdict::None),
    }
}

/// The files that a session in one process leaves, on new ones.
pub fn alone(alloc: Global, around: Around, asked: Asked<'_>) -> Result<Kept, AllocError> {
    let mut site = site(alloc, around, &Kept::blank(alloc))?;
    let Ok(setup) = setup(alloc, asked.book) else {
        return Ok(Kept::blank(alloc));
    };
    let Ok(answers) = answers(alloc, asked.answers, asked.run) else {
        return Ok(Kept::blank(alloc));
    };
    let _ = session(
        alloc,
        &mut site,
        setup,
        &answers,
        asked.run,
        asked.most.max(1),
    );
    Kept::left(alloc, site, 0)
}

/// Whether the engine's end has file 0 of these, the end of the filters the others, and neither has more.
pub fn are_of(engine: &Kept, filters: &Kept, all: &Kept) -> bool {
    if engine.file(0) != all.file(0) || !filters.file(0).is_empty() {
        return false;
    }
    for number in 1..17u8 {
        if filters.file(number) != all.file(number) || !engine.file(number).is_empty() {
            return false;
        }
    }
    true
}
