// The course of a run, one record after another.
ghost use Rattle.std.specs.Prelude.{◌≡◌, ◌<◌, ◌++◌, Ok, IfErr, OnOk, map, option_to_list, slice_get, true, false};
ghost use Rattle.flow_engine_history.specs.Replays.{CannotFollow};
ghost use Rattle.flow_engine_reports.specs.Replaying.{RefusesNext};
ghost use Rattle.cacao_view_graph.specs.Courses.{sent_task, spot_of, spots, walked_task};
ghost use Rattle.cacao_view_graph.specs.Following.{Adds, FollowsEntry};

use crate::course::Course;
use crate::spot::Spot;
use cacao_view_log::take;
use flow_core::Flow;
use flow_engine_reports::ReportError;
use run_records::{Record, read_record};
use std::alloc::{AllocError, Global};

/// The task whose step a record walked.
fn walked_task(item: &Record) -> Option<u32>
    ensures { result ≡ walked_task item.now }
{
    match item {
        Record::Walk { task, .. } => Some(*task),
        _ => None,
    }
}

/// The task from whose step a record sent a command, or asked an operator.
fn sent_task(item: &Record) -> Option<u32>
    ensures { result ≡ sent_task item.now }
{
    match item {
        Record::Send { task, .. } => Some(*task),
        Record::Ask { task, .. } => Some(*task),
        _ => None,
    }
}

/// Adds the step at which a task stands, if there is such a task.
fn add_stand(list: &mut Vec<Spot>, flow: &Flow, task: u32) -> Result<(), AllocError>
    ensures { OnOk result (list.new.items
        ≡ list.old.items ++ map spot_of (option_to_list (slice_get flow.now.seen.lists.tasks task))) }
{
    let Some(stand) = flow.stand_of(task) else {
        return Ok(());
    };
    list.push(Spot {
        book: stand.0,
        step: stand.1,
    })?;
    Ok(())
}

/// Adds the step at which the task with this number stands, if there is one.
fn add_spot(list: &mut Vec<Spot>, flow: &Flow, number: Option<u32>) -> Result<(), AllocError>
    ensures { OnOk result (list.new.items ≡ list.old.items ++ spots flow.now.seen number) }
{
    match number {
        Some(task) => add_stand(list, flow, task),
        None => Ok(()),
    }
}

/// Adds the steps of a record to the course, by how the run stands before it.
fn add_record(course: &mut Course, flow: &Flow, item: &Record) -> Result<(), AllocError>
    ensures { OnOk result (Adds course.old flow.now.seen item.now course.new) }
{
    add_spot(&mut course.walked, flow, walked_task(item))?;
    add_spot(&mut course.sent, flow, sent_task(item))?;
    Ok(())
}

/// Takes the record of an entry, and adds it to the course; false where it is none, or may not come next.
pub(crate) fn follow_next(
    alloc: Global,
    flow: &mut Flow,
    entry: &[u8],
    course: &mut Course,
) -> Result<bool, ReportError>
    requires few { flow.old.count < 100_000_000 }
    ensures followed { result ≡ Ok true → FollowsEntry flow.old course.old entry.now flow.new course.new }
    ensures bad { result ≡ Ok false → CannotFollow flow.old entry.now }
    ensures refused { IfErr result (RefusesNext flow.old entry.now) }
{
    let item = match read_record(alloc, entry) {
        Ok(Some(item)) => item,
        Ok(None) => return Ok(false),
        Err(_) => return Err(ReportError::Memory),
    };
    match add_record(course, flow, &item) {
        Ok(()) => {}
        Err(_) => return Err(ReportError::Memory),
    }
    match take(flow, &item) {
        Ok(true) => Ok(true),
        Ok(false) => Ok(false),
        Err(error) => Err(error),
    }
}
