// The acts of all filters, and whether the files of each run agree.
use crate::looks::{KeptAct, Look};
use cacao_site::Bytes;
use flow_audit::{AuditError, Files17, Verdict17, audit};
use std::alloc::{AllocError, Global};

/// Whether two acts are on one command.
fn is_same(one: &KeptAct, other: &KeptAct) -> bool {
    one.act.run == other.act.run && one.act.issue == other.act.issue
}

/// Whether there is one act at most on each issue of a run, over all filters.
pub(crate) fn are_single(acts: &[KeptAct]) -> bool {
    for n in 0..acts.len() {
        for other in 0..n {
            if is_same(&acts[n], &acts[other]) {
                return false;
            }
        }
    }
    true
}

/// Adds a copy of a file.
fn add_copy(alloc: Global, files: &mut Vec<Bytes>, file: &Bytes) -> Result<(), AllocError> {
    files.push(file.copy(alloc)?)?;
    Ok(())
}

/// The files of the run with this journal.
fn files_of(alloc: Global, journal: &Bytes, filters: &[Bytes]) -> Result<Files17, AllocError> {
    let mut files = Vec::new(alloc);
    add_copy(alloc, &mut files, journal)?;
    for filter in filters {
        add_copy(alloc, &mut files, filter)?;
    }
    Ok(Files17::from_vec(files))
}

/// Whether the files of the run with this journal agree, and hold so many records and acts.
fn agrees(alloc: Global, look: &Look, journal: &Bytes, records: u32) -> Result<bool, AllocError> {
    let files = files_of(alloc, journal, look.filters.as_slice())?;
    match audit(alloc, &files) {
        Ok(Verdict17::Yes { records: n, acts }) => {
            Ok(n == records && acts as usize == look.acts.len())
        }
        Err(AuditError::Memory) => Err(AllocError),
        _ => Ok(false),
    }
}

/// Whether the files of each run agree.
pub(crate) fn all_agree(alloc: Global, look: &Look) -> Result<bool, AllocError> {
    for place in 0..look.journals.len() {
        let journal = &look.journals[place];
        if !agrees(alloc, look, journal, look.count(place))? {
            return Ok(false);
        }
    }
    Ok(true)
}
