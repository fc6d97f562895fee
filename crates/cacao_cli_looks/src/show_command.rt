// The command `show`.
ghost use Rattle.std.specs.Prelude.{◌≡◌};
ghost use Rattle.cacao_cli_ends.specs.Told.{end_of};
ghost use Rattle.cacao_cli_looks.specs.Command.{journal_end, report_end};
ghost use Rattle.cacao_cli_looks.specs.Looking.{Looks};
ghost use Rattle.cacao_cli_ends.specs.Work.{opens_run};

use crate::say_text::say_text;
use cacao_cli_ends::{End, Limit};
use cacao_site::Site;
use flow_engine_reports::{ReportError, run_report};
use run_journal::{Journal, JournalError};
use std::alloc::Global;

/// How a call ends where the engine's file was not opened.
fn journal_end<'w>(error: JournalError) -> End<'w>
    ensures { end_of result ≡ journal_end error }
{
    match error {
        JournalError::Disk => End::DiskFailed,
        JournalError::Damaged { place } => End::Damaged { file: 0, place },
        JournalError::Full { .. } | JournalError::Broken | JournalError::Memory => End::NoMemory,
    }
}

/// How a call ends where nothing can be said of the entries of that file.
fn report_end<'w>(error: ReportError) -> End<'w>
    ensures { end_of result ≡ report_end error }
{
    match error {
        ReportError::Damaged { place } => End::Damaged { file: 0, place },
        ReportError::TooManyTasks => End::Past {
            limit: Limit::TaskCount,
        },
        ReportError::Memory => End::NoMemory,
    }
}

/// `show`: says how the run stands that the engine's file holds.
pub fn show<'w, S: Site>(alloc: Global, site: &mut S) -> End<'w>
    ensures { Looks opens_run (S.view site.old) (S.view site.new) (end_of result) }
{
    let journal = match Journal::open_on(alloc, site, 0) {
        Ok(journal) => journal,
        Err(error) => return journal_end(error),
    };
    match run_report(alloc, &journal) {
        Ok(text) => say_text(text.as_slice(), End::Done, site),
        Err(error) => report_end(error),
    }
}
