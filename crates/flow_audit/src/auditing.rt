// The audit of the files of a run.
ghost use Rattle.std.specs.Prelude.{◌≡◌, ◌⊎◌, ℕ, List, length, sum_by, IfOk, IfErr, IsErrOf};
ghost use Rattle.run_records.specs.declared.act.Act.{Act};
ghost use Rattle.flow_audit.specs.Audits.{AllAgree, IsVerdict, PassesTasksAt};
ghost use Rattle.flow_audit.specs.Parts.{AreFew, IsWithin, StopsAudit, lists_of};
ghost use Rattle.flow_audit.specs.declared.verdict.Verdict17.{Verdict17};

use crate::acting::check_filters;
use crate::answering::check_replies;
use crate::files::Files17;
use crate::reading::{ActFile, ReadFiles, read_files};
use crate::running::{JournalRun, follow};
use crate::verdict::{AuditError, Stop, Verdict17};
use std::alloc::Global;

/// How many records and acts the files hold.
#[derive(Clone, Copy, Drop)]
struct Counts {
    records: u32,
    acts: u32,
}

/// Whether the files stand for a run and for acts of filters that agree, where no parcel was put.
///
/// The answer is no with the first of these, in this order: the least file that stands for no list of entries or has an entry
/// outside its layout; file 0's first record that is no Begin of what is accepted, or no next step; the least file of a filter
/// with an act that repeats a run and issue, has another reply than the rules before it give, or is of this run and on no Send
/// of it to this filter; file 0's first Reply without its act. `Tasks` comes exactly where all files can be read and a next step
/// makes more than 1,000,000 tasks, while the records before it are a run within that number.
pub fn audit(alloc: Global, files: &Files17) -> Result<Verdict17, AuditError>
    ensures is { IfOk result (IsVerdict files.now) }
    // There is no other verdict.
    ensures one { IfOk result (λ told. (other : Verdict17) → IsVerdict files.now other → told ≡ other) }
    ensures tasks { (place : ℕ) → IsErrOf result (AuditError.Tasks place) → PassesTasksAt files.now place }
    ensures tasks_only { (place : ℕ) → PassesTasksAt files.now place
        → (IsErrOf result (AuditError.Tasks place)) ⊎ (IsErrOf result AuditError.Memory) }
{
    match judge(alloc, files) {
        Ok(Counts { records, acts }) => Ok(Verdict17::Yes { records, acts }),
        Err(Stop::No { file, place }) => Ok(Verdict17::No { file, place }),
        Err(Stop::Tasks { place }) => Err(AuditError::Tasks { place }),
        Err(Stop::Memory) => Err(AuditError::Memory),
    }
}

/// How many records and acts there are, where they agree.
fn judge(alloc: Global, files: &Files17) -> Result<Counts, Stop>
    ensures agree { IfOk result (λ counts. AllAgree files.now counts.records counts.acts) }
    ensures within { IfOk result (λ counts. IsWithin files.now) }
    ensures stops { IfErr result (StopsAudit files.now) }
{
    let ReadFiles {
        journal,
        filters: read,
    } = match read_files(alloc, files) {
        Ok(found) => found,
        Err(stop) => return Err(stop),
    };
    let flow = match follow(alloc, &journal) {
        Ok(flow) => flow,
        Err(stop) => return Err(stop),
    };
    let run = JournalRun {
        file: journal,
        flow,
    };
    let filters = read.as_slice();
    let indexes = match check_filters(alloc, &run, filters) {
        Ok(indexes) => indexes,
        Err(stop) => return Err(stop),
    };
    match check_replies(alloc, &run, filters, indexes.as_slice()) {
        Ok(()) => {}
        Err(stop) => return Err(stop),
    }
    Ok(Counts {
        records: run.file.records.as_slice().len() as u32,
        acts: count_acts(filters),
    })
}

/// How many acts the filters have.
fn count_acts(filters: &[ActFile]) -> u32
    requires many { length filters.now ≡ 16 }
    requires few { AreFew filters.now }
    ensures { result ≡ sum_by (λ (acts : List Act). length acts) (lists_of filters.now) }
{
    let mut count = 0;
    for file in filters {
        count += file.acts.as_slice().len() as u32;
    }
    count
}
