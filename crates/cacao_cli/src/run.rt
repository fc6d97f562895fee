// The command `run`.
ghost use Rattle.std.specs.Prelude.{◌≡◌, ◌≤◌, [], Some};
ghost use Rattle.cacao_cli_words.specs.Commands.{run_request};
ghost use Rattle.cacao_cli_ends.specs.Asked.{runs};
ghost use Rattle.cacao_cli_ends.specs.Told.{end_of};
ghost use Rattle.cacao_cli_status_laws.specs.Ended.{Performed};
ghost use Rattle.cacao_cli_ends.specs.Files.{files_of, shelf_call};

use cacao_cli_ends::End;
use cacao_cli_peers::{Ready, make_ready};
use cacao_cli_session::hold;
use cacao_cli_words::RunWords;
use cacao_site::{Shelf, Site};
use std::alloc::Global;

/// `run`: one session of a run, a line for each record that it appends.
pub fn run<'w, L: Shelf, S: Site>(
    alloc: Global,
    wanted: &RunWords<'w>,
    shelf: &mut L,
    site: &mut S,
) -> End<'w>
    ensures performed { Performed (Some (runs (run_request wanted.entry.now)))
        (shelf_call (L.told shelf.old) (L.faults shelf.old) (L.faults shelf.new) (L.reads shelf.old) (L.reads shelf.new))
        (S.view site.old) (S.view site.new) (end_of result) }
    ensures files { L.told shelf.new ≡ L.told shelf.old }
    ensures faults { L.faults shelf.old ≤ L.faults shelf.new }
    ensures untouched { files_of (Some (runs (run_request wanted.entry.now))) ≡ [] → shelf.new ≡ shelf.old }
{
    match make_ready(alloc, wanted, shelf) {
        Ok(Ready { setup, answers }) => {
            hold(alloc, setup, &answers, wanted.run, wanted.most, site)
        }
        Err(end) => end,
    }
}
