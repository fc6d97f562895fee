// The word `graph` alone: the run in the engine's file as a picture.
ghost use Rattle.cacao_cli_ends.specs.Told.{end_of};
ghost use Rattle.cacao_view_graph.specs.RunPictures.{DrawsEntries};
ghost use Rattle.cacao_view.specs.OpeningRuns.{OpensTo};

use crate::log_word::{journal_end, report_end};
use cacao_cli_ends::End;
use cacao_site::Disk;
use cacao_view_graph::run_picture;
use cacao_view_log::Source;
use cacao_view_words::{Lines, Report};
use run_journal::Journal;
use std::alloc::Global;

/// What `graph` alone tells of the run in the engine's file of the disk: its picture, a line a statement. The file is synced, so that a crash
/// leaves what is told, and read.
pub(crate) fn graph_disk<'w, D: Disk>(alloc: Global, disk: &mut D) -> Report<'w>
    ensures { OpensTo DrawsEntries (D.view disk.old) (D.view disk.new) result.lines (end_of result.end) }
{
    let journal = match Journal::open_on(alloc, disk, 0) {
        Ok(journal) => journal,
        Err(error) => return Report::ending(alloc, journal_end(error)),
    };
    match run_picture(alloc, &Source::Journal(&journal)) {
        Ok(lines) => Report {
            lines: Lines::from_vec(lines),
            end: End::Done,
        },
        Err(error) => Report::ending(alloc, report_end(error)),
    }
}
