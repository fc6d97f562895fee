// The records of a run, followed one after another.
ghost use Rattle.std.specs.Prelude.{◌≡◌, ◌<◌, ◌≤◌, [], ℕ, IfErr, IfOk, IsErrOf, MatchOption, OnOk, length, take};
ghost use Rattle.flow_engine_reports.specs.Beginnings.{IsNotBegun};
ghost use Rattle.flow_engine_reports.specs.Replaying.{StopsReplay};
ghost use Rattle.flow_engine_reports.specs.RunFiles.{BreaksOff, Overgrows};
ghost use Rattle.cacao_view_log.specs.Sources.{IsWhole, items_of};
ghost use Rattle.cacao_view_graph.specs.Following.{BeginsCourse, IsFollowed, TellsCourse};

use crate::course::Course;
use crate::followed::Followed;
use crate::tracing::follow_next;
use cacao_view_log::{Source, begun};
use flow_core::Flow;
use flow_engine_history::FIRST_GATE;
use flow_engine_reports::ReportError;
use run_records::read_record;
use std::alloc::{AllocError, Global};

/// How the run of these entries, at least one, stands and went.
pub(crate) fn follow(alloc: Global, source: &Source<'_>) -> Result<Followed, ReportError>
    requires whole { IsWhole source.now }
    requires some { 0 < length (items_of source.now) }
    ensures ok { IfOk result (λ followed. TellsCourse (items_of source.now) followed.flow followed.course) }
    ensures damaged { (place : ℕ) → IsErrOf result (ReportError.Damaged place) → BreaksOff (items_of source.now) place }
    ensures tasks { IsErrOf result ReportError.TooManyTasks → Overgrows (items_of source.now) }
{
    let mut course = blank(alloc);
    let mut flow = match begin(alloc, source.entry(0), &course) {
        Ok(Some(flow)) => flow,
        Ok(None) => return Err(ReportError::Damaged { place: FIRST_GATE }),
        Err(_) => return Err(ReportError::Memory),
    };
    match follow_others(alloc, source, &mut flow, &mut course) {
        Ok(()) => {}
        Err(error) => return Err(error),
    }
    flow.law();
    Ok(Followed { flow, course })
}

/// The course of a run behind its Begin.
fn blank(alloc: Global) -> Course
    ensures walked { result.walked.items ≡ [] }
    ensures sent { result.sent.items ≡ [] }
{
    Course {
        walked: Vec::new(alloc),
        sent: Vec::new(alloc),
    }
}

/// The run that the first entry begins, which has walked and sent nothing; None where it is no Begin of what is accepted.
fn begin(alloc: Global, entry: &[u8], course: &Course) -> Result<Option<Flow>, AllocError>
    requires walked { course.now.walked.items ≡ [] }
    requires sent { course.now.sent.items ≡ [] }
    ensures { IfOk result (λ o. MatchOption o (IsNotBegun entry.now) (BeginsCourse entry.now course.now)) }
{
    let _ = course;
    let Some(item) = read_record(alloc, entry)? else {
        return Ok(None);
    };
    begun(alloc, &item)
}

/// Follows the records of the entries behind the first one.
fn follow_others(
    alloc: Global,
    source: &Source<'_>,
    flow: &mut Flow,
    course: &mut Course,
) -> Result<(), ReportError>
    requires whole { IsWhole source.now }
    requires some { 1 ≤ length (items_of source.now) }
    requires begun { IsFollowed flow.old.seen.given flow.old.seen.run (take 1 (items_of source.now)) flow.old course.old }
    ensures ok { OnOk result (IsFollowed flow.old.seen.given flow.old.seen.run (items_of source.now) flow.new course.new) }
    ensures refused { IfErr result (StopsReplay flow.old.seen.given flow.old.seen.run (items_of source.now)) }
{
    for n in 1..source.count() {
        flow.law();
        match follow_next(alloc, flow, source.entry(n), course) {
            Ok(true) => {}
            Ok(false) => {
                return Err(ReportError::Damaged {
                    place: source.place(n),
                });
            }
            Err(error) => return Err(error),
        }
    }
    Ok(())
}
