// The picture of a run.
ghost use Rattle.std.specs.Prelude.{◌≡◌, ◌<◌, ℕ, true, IfOk, IsErrOf, length};
ghost use Rattle.flow_core.specs.Views.{has_begun};
ghost use Rattle.flow_engine_reports.specs.RunFiles.{BreaksOff, Overgrows};
ghost use Rattle.cacao_view_log.specs.Sources.{IsWhole, items_of};
ghost use Rattle.cacao_view_graph.specs.Following.{DrawsFlow};
ghost use Rattle.cacao_view_graph.specs.RunPictures.{DrawsEntries};

use crate::course::Course;
use crate::followed::Followed;
use crate::following::follow;
use crate::marks::Marks;
use crate::noting::notes_of;
use crate::pictures::{marked_picture, picture};
use crate::trees::trees_of;
use cacao_site::Bytes;
use cacao_view_log::Source;
use flow_core::Flow;
use flow_engine_reports::ReportError;
use std::alloc::{AllocError, Global};

/// The picture of a run that stands so and went so.
fn draw(alloc: Global, flow: &Flow, course: Course) -> Result<Vec<Bytes>, AllocError>
    requires { has_begun flow.now ≡ true }
    ensures { IfOk result (λ lines. DrawsFlow flow.now course lines.items) }
{
    flow.law();
    let trees = trees_of(alloc, flow.setup().texts())?;
    let notes = notes_of(alloc, flow, course.sent.as_slice())?;
    let marks = Some(Marks {
        walked: course.walked,
        notes,
    });
    marked_picture(alloc, trees.as_slice(), &marks)
}

/// The picture of the run of these entries, at least one.
fn draw_run(alloc: Global, source: &Source<'_>) -> Result<Vec<Bytes>, ReportError>
    requires whole { IsWhole source.now }
    requires some { 0 < length (items_of source.now) }
    ensures ok { IfOk result (λ lines. DrawsEntries (items_of source.now) lines.items) }
    ensures damaged { (place : ℕ) → IsErrOf result (ReportError.Damaged place) → BreaksOff (items_of source.now) place }
    ensures tasks { IsErrOf result ReportError.TooManyTasks → Overgrows (items_of source.now) }
{
    let followed = match follow(alloc, source) {
        Ok(followed) => followed,
        Err(error) => return Err(error),
    };
    let Followed { flow, course } = followed;
    match draw(alloc, &flow, course) {
        Ok(lines) => Ok(lines),
        Err(_) => Err(ReportError::Memory),
    }
}

/// The picture of no playbooks, where there is no entry.
fn draw_none(alloc: Global, source: &Source<'_>) -> Result<Vec<Bytes>, ReportError>
    requires { length (items_of source.now) ≡ 0 }
    ensures ok { IfOk result (λ lines. DrawsEntries (items_of source.now) lines.items) }
    ensures damaged { (place : ℕ) → IsErrOf result (ReportError.Damaged place) → BreaksOff (items_of source.now) place }
    ensures tasks { IsErrOf result ReportError.TooManyTasks → Overgrows (items_of source.now) }
{
    let _ = source;
    match picture(alloc, &[]) {
        Ok(lines) => Ok(lines),
        Err(_) => Err(ReportError::Memory),
    }
}

/// The picture of the run that these entries of an engine's file are, as lines of DOT: that of the playbooks of its Begin, with what the run
/// marks at their steps; where there is no entry, that of no playbooks. The entries are replayed, so that they are the records of a run; else
/// the place of the first is told that is none.
pub fn run_picture(alloc: Global, source: &Source<'_>) -> Result<Vec<Bytes>, ReportError>
    requires { IsWhole source.now }
    ensures ok { IfOk result (λ lines. DrawsEntries (items_of source.now) lines.items) }
    ensures damaged { (place : ℕ) → IsErrOf result (ReportError.Damaged place) → BreaksOff (items_of source.now) place }
    ensures tasks { IsErrOf result ReportError.TooManyTasks → Overgrows (items_of source.now) }
{
    if source.count() == 0 {
        return draw_none(alloc, source);
    }
    draw_run(alloc, source)
}
