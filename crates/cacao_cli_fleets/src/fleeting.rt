// The command `fleet`.
ghost use Rattle.std.specs.Prelude.{◌≡◌, ◌≤◌, IfOk, map};
ghost use Rattle.cacao_cli_words.specs.Commands.{fleet_request_by};
ghost use Rattle.cacao_cli_ends.specs.Files.{shelf_call};
ghost use Rattle.cacao_cli_fleets.specs.FleetEnds.{fleet_end_of};
ghost use Rattle.cacao_cli_fleets.specs.Fleeting.{FleetHeld, GoesAsFleet};

use crate::ending::{close_end, error_end};
use crate::fleet_end::FleetEnd;
use crate::judging::set_up;
use cacao_cli_ends::End;
use cacao_cli_looks::read_files;
use cacao_cli_words::{FleetWords, RunBook};
use cacao_site::{Rack, Shelf};
use flow_fleet_returns::FleetRuns;
use std::alloc::{AllocError, Global};

/// The names of the files, in order.
fn names_of<'w>(alloc: Global, runs: &[RunBook<'w>]) -> Result<Vec<&'w str>, AllocError>
    ensures { IfOk result (λ names. map (λ name. name.now) names.items ≡ map (λ one. one.book.now) runs.entry.now) }
{
    let mut names = Vec::new(alloc);
    for one in runs {
        names.push(one.book)?;
    }
    Ok(names)
}

/// `fleet`: runs side by side over the same filters, a line for each record, behind the number of its run.
pub fn fleet<'w, L: Shelf, R: Rack>(
    alloc: Global,
    wanted: &FleetWords<'w>,
    shelf: &mut L,
    rack: &mut R,
) -> FleetEnd<'w>
    ensures performed { GoesAsFleet (fleet_request_by wanted.entry.now)
        (shelf_call (L.told shelf.old) (L.faults shelf.old) (L.faults shelf.new) (L.reads shelf.old) (L.reads shelf.new))
        (R.view rack.old) (R.view rack.new) (fleet_end_of result) }
    ensures files { L.told shelf.new ≡ L.told shelf.old }
    ensures faults { L.faults shelf.old ≤ L.faults shelf.new }
{
    let Ok(names) = names_of(alloc, wanted.runs.as_slice()) else {
        return FleetEnd::Plain { end: End::NoMemory };
    };
    let texts = match read_files(alloc, names.as_slice(), shelf) {
        Ok(texts) => texts,
        Err(end) => return FleetEnd::Plain { end },
    };
    match set_up(alloc, wanted, texts) {
        Ok(runs) => {
            runs.law();
            hold(alloc, runs, wanted.most, rack)
        },
        Err(end) => FleetEnd::Plain { end },
    }
}

/// Holds the fleet of these runs.
fn hold<'w, R: Rack>(alloc: Global, runs: FleetRuns, most: u64, rack: &mut R) -> FleetEnd<'w>
    requires { 1 ≤ most }
    ensures { FleetHeld runs most (R.view rack.old) (R.view rack.new) (fleet_end_of result) }
{
    match flow_fleet_returns::fleet(alloc, rack, runs, most) {
        Ok(close) => close_end(close),
        Err(error) => error_end(error),
    }
}
