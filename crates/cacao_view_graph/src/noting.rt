// What is noted at the steps of a run.
ghost use Rattle.std.specs.Prelude.{◌≡◌, ◌∷◌, ◌++◌, [], true, IfOk, OnOk, slice_get};
ghost use Rattle.flow_core.specs.Views.{has_begun};
ghost use Rattle.cacao_view_graph.specs.Cutting.{behind, behind_way, behind_words, first_line, lines_from_issue, lines_from_task, way_text, way_told};
ghost use Rattle.cacao_view_graph.specs.Notes.{issue_notes, note_at, notes_of, task_notes};

use crate::cutting::{behind, behind_head, behind_way, behind_words, first_line, way_told};
use crate::note::Note;
use crate::spot::Spot;
use crate::way::Way;
use cacao_site::Bytes;
use flow_core::Flow;
use std::alloc::{AllocError, Global};

/// One more than the most tasks that a run has.
const TASKS: u32 = 1_000_001;

/// What is noted of a task that goes on.
fn stands_text(alloc: Global, task: u32) -> Result<Bytes, AllocError>
    ensures { IfOk result (λ text. text ≡ way_text task Way.Stands) }
{
    let text = format!(in alloc; "task {task} stands here\n")?;
    Ok(Bytes::from_vec(text.into_bytes()))
}

/// What is noted of a task that ended failed.
fn failed_text(alloc: Global, task: u32) -> Result<Bytes, AllocError>
    ensures { IfOk result (λ text. text ≡ way_text task Way.Failed) }
{
    let text = format!(in alloc; "task {task} ended failed\n")?;
    Ok(Bytes::from_vec(text.into_bytes()))
}

/// What is noted of a task that stands so.
fn task_text(alloc: Global, task: u32, way: Way) -> Result<Bytes, AllocError>
    ensures { IfOk result (λ text. text ≡ way_text task way) }
{
    match way {
        Way::Stands => stands_text(alloc, task),
        Way::Failed => failed_text(alloc, task),
        Way::Done => Bytes::from_slice(alloc, b""),
    }
}

/// Notes a task at its step, whose key has so many bytes, and answers the lines behind its own.
fn note_task<'t>(
    alloc: Global,
    task: u32,
    spot: Spot,
    key: usize,
    lines: &'t [u8],
    notes: &mut Vec<Note>,
) -> Result<&'t [u8], AllocError>
    ensures rest { IfOk result (λ rest. rest.now ≡ behind_way key (way_told (behind_words lines.now)) (behind_words lines.now)) }
    ensures notes { OnOk result (notes.new.items
        ≡ notes.old.items ++ note_at spot (way_text task (way_told (behind_words lines.now))) ∷ []) }
{
    let words = behind_words(lines);
    let way = way_told(words);
    let text = task_text(alloc, task, way)?;
    notes.push(Note { spot, text })?;
    Ok(behind_way(words, way, key))
}

/// Notes all tasks, and answers the lines behind theirs.
fn note_tasks<'t>(
    alloc: Global,
    flow: &Flow,
    lines: &'t [u8],
    notes: &mut Vec<Note>,
) -> Result<&'t [u8], AllocError>
    requires { lines.now ≡ lines_from_task flow.now.seen 0 }
    ensures rest { IfOk result (λ rest. rest.now ≡ lines_from_issue flow.now.seen 0) }
    ensures notes { OnOk result (notes.new.items ≡ notes.old.items ++ task_notes 0 flow.now.seen.lists.tasks) }
{
    flow.law();
    let mut rest = lines;
    for task in 0..TASKS {
        let Some(stand) = flow.stand_of(task) else {
            return Ok(rest);
        };
        let spot = Spot {
            book: stand.0,
            step: stand.1,
        };
        let key = flow.step_of(task).len();
        rest = note_task(alloc, task, spot, key, rest, notes)?;
    }
    Ok(rest)
}

/// The step with this number, if there is one.
fn spot_at(spots: &[Spot], number: u32) -> Option<Spot>
    ensures { result ≡ slice_get spots.now number }
{
    spots.get(number as usize).copied()
}

/// Notes an issue at the step from which it was sent, and answers the lines behind its own.
fn note_issue<'t>(
    alloc: Global,
    spot: Spot,
    lines: &'t [u8],
    notes: &mut Vec<Note>,
) -> Result<&'t [u8], AllocError>
    ensures rest { IfOk result (λ rest. rest.now ≡ behind 10 lines.now) }
    ensures notes { OnOk result (notes.new.items ≡ notes.old.items ++ note_at spot (first_line lines.now) ∷ []) }
{
    let text = Bytes::from_slice(alloc, first_line(lines))?;
    notes.push(Note { spot, text })?;
    Ok(behind(lines, b'\n'))
}

/// Notes all issues, each at the step from which it was sent.
fn note_issues(
    alloc: Global,
    flow: &Flow,
    sent: &[Spot],
    lines: &[u8],
    notes: &mut Vec<Note>,
) -> Result<(), AllocError>
    requires { lines.now ≡ lines_from_issue flow.now.seen 0 }
    ensures { OnOk result (notes.new.items ≡ notes.old.items ++ issue_notes 0 sent.now flow.now.seen.lists.issues) }
{
    let mut rest = lines;
    for issue in 0..flow.issues() {
        let Some(spot) = spot_at(sent, issue) else {
            return Ok(());
        };
        rest = note_issue(alloc, spot, rest, notes)?;
    }
    Ok(())
}

/// What is noted at the steps of a run, whose issues were sent from these steps.
pub(crate) fn notes_of(alloc: Global, flow: &Flow, sent: &[Spot]) -> Result<Vec<Note>, AllocError>
    requires { has_begun flow.now ≡ true }
    ensures { IfOk result (λ notes. notes.items ≡ notes_of flow.now.seen sent.now) }
{
    let report = flow.report()?;
    let mut notes = Vec::new(alloc);
    let rest = note_tasks(alloc, flow, behind_head(report.as_slice()), &mut notes)?;
    note_issues(alloc, flow, sent, rest, &mut notes)?;
    Ok(notes)
}
