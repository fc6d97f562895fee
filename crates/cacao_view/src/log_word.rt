// The word `log`: the records of a run again.
ghost use Rattle.std.specs.Prelude.{◌≡◌};
ghost use Rattle.cacao_cli_ends.specs.Files.{shelf_call};
ghost use Rattle.cacao_cli_ends.specs.Told.{end_of};
ghost use Rattle.cacao_cli_looks.specs.Command.{journal_end, report_end};
ghost use Rattle.cacao_view_log.specs.Logs.{Logs};
ghost use Rattle.cacao_view.specs.Logging.{LogsFile, LogsImage, form_of};
ghost use Rattle.cacao_view.specs.OpeningRuns.{OpensTo};
ghost use Rattle.cacao_view.specs.Told.{image_end};

use cacao_cli_ends::{End, Limit};
use cacao_cli_looks::read_bytes;
use cacao_site::{Disk, Shelf};
use cacao_view_log::{Form, Source, log};
use cacao_view_words::{Lines, Report};
use flow_engine_reports::ReportError;
use run_journal::{ImageError, Journal, JournalError, read_image};
use std::alloc::Global;

/// The form in which records are told, as JSON or not.
pub(crate) fn form_of(json: bool) -> Form
    ensures { result ≡ form_of json }
{
    if json { Form::Object } else { Form::Line }
}

/// What `log` tells of the records in the engine's file of the disk. The file is synced, so that a crash leaves what is told, and read.
pub(crate) fn log_disk<'w, D: Disk>(alloc: Global, form: Form, disk: &mut D) -> Report<'w>
    ensures { OpensTo (Logs form) (D.view disk.old) (D.view disk.new) result.lines (end_of result.end) }
{
    let journal = match Journal::open_on(alloc, disk, 0) {
        Ok(journal) => journal,
        Err(error) => return Report::ending(alloc, journal_end(error)),
    };
    match log(alloc, &Source::Journal(&journal), form) {
        Ok(texts) => Report {
            lines: Lines::from_vec(texts),
            end: End::Done,
        },
        Err(error) => Report::ending(alloc, report_end(error)),
    }
}

/// How a call ends where the engine's file was not opened.
pub(crate) fn journal_end<'w>(error: JournalError) -> End<'w>
    ensures { end_of result ≡ journal_end error }
{
    match error {
        JournalError::Disk => End::DiskFailed,
        JournalError::Damaged { place } => End::Damaged { file: 0, place },
        JournalError::Full { .. } | JournalError::Broken | JournalError::Memory => End::NoMemory,
    }
}

/// How a call ends where its entries are no run.
pub(crate) fn report_end<'w>(error: ReportError) -> End<'w>
    ensures { end_of result ≡ report_end error }
{
    match error {
        ReportError::Damaged { place } => End::Damaged { file: 0, place },
        ReportError::TooManyTasks => End::Past {
            limit: Limit::TaskCount,
        },
        ReportError::Memory => End::NoMemory,
    }
}

/// What `log` tells of the records in the engine's file of this name.
pub(crate) fn log_file<'w, L: Shelf>(
    alloc: Global,
    form: Form,
    name: &'w str,
    shelf: &mut L,
) -> Report<'w>
    ensures logs { LogsFile form name.entry.now
        (shelf_call (L.told shelf.old) (L.faults shelf.old) (L.faults shelf.new) (L.reads shelf.old) (L.reads shelf.new))
        result.lines (end_of result.end) }
    ensures files { L.told shelf.new ≡ L.told shelf.old }
{
    match read_bytes(alloc, name, Limit::JournalBytes, shelf) {
        Ok(bytes) => log_image(alloc, form, bytes.as_slice()),
        Err(end) => Report::ending(alloc, end),
    }
}

/// How a call ends where the image of an engine's file holds no entries.
fn image_end<'w>(error: ImageError) -> End<'w>
    ensures { end_of result ≡ image_end error }
{
    match error {
        ImageError::Damaged { place } => End::Damaged { file: 0, place },
        ImageError::Memory => End::NoMemory,
    }
}

/// What is told of the records in the image of an engine's file.
fn log_image<'w>(alloc: Global, form: Form, image: &[u8]) -> Report<'w>
    ensures { LogsImage form image.now result.lines (end_of result.end) }
{
    let entries = match read_image(alloc, image) {
        Ok(entries) => entries,
        Err(error) => return Report::ending(alloc, image_end(error)),
    };
    match log(alloc, &Source::Entries(&entries), form) {
        Ok(texts) => Report {
            lines: Lines::from_vec(texts),
            end: End::Done,
        },
        Err(error) => Report::ending(alloc, report_end(error)),
    }
}
