// The opening of a fleet's files, and what follows once they are open.
ghost use Rattle.std.specs.Prelude.{◌≡◌, ◌≤◌, ℕ, [], IfOk, IfErr, OnOk, length};
ghost use Rattle.flow_world_steps.specs.Worlds.{opened};
ghost use Rattle.flow_fleet_steps.specs.Openings.{AreFleetOpen, OpensJournals, RefusesFleetOpening, RefusesJournalAt};
ghost use Rattle.flow_fleet_steps.specs.Turns.{StandsAt};
ghost use Rattle.flow_fleet_steps.specs.Worlds.{EachRun, Own, Shared};
ghost use Rattle.flow_world_steps.specs.Sides.{AreFilters};
ghost use Rattle.flow_fleet.specs.Journals.{OpensNextJournal, RefusesNextJournal};
ghost use Rattle.flow_fleet.specs.Leads.{EndedAt, IsNewTo, at};

use crate::fleet_state::Fleet;
use crate::runs::FleetRuns;
use crate::searches::{first_used, last_moment};
use crate::seen::open_at;
use cacao_site::Rack;
use flow_core::Setup;
use flow_engine::Engine;
use flow_fleet_steps::{FleetClose, FleetError};
use flow_world_parts::Filters;
use flow_world_parts::clock::reach;
use std::alloc::Global;

/// Opens the journal of the run at the next place. It writes nothing.
fn open_next<R: Rack>(
    alloc: Global,
    rack: &mut R,
    engines: &mut Vec<Engine>,
    place: u8,
    run: u64,
    setup: Setup,
) -> Result<(), FleetError>
    requires { place ≤ 15 }
    ensures opens { OnOk result (OpensNextJournal place run setup (R.view rack.old) (R.view rack.new) engines.old.items engines.new.items) }
    ensures refused { IfErr result (λ error. RefusesNextJournal error place run setup (R.view rack.old) (R.view rack.new)) }
{
    match open_at(alloc, rack, place, setup, run) {
        Ok(engine) => match engines.push(engine) {
            Ok(()) => Ok(()),
            Err(_) => Err(FleetError::Memory),
        },
        Err(error) => Err(FleetError::of(place, run, error)),
    }
}

/// Opens the journal of each run, by place. It writes nothing.
fn open_journals<R: Rack>(
    alloc: Global,
    rack: &mut R,
    runs: FleetRuns,
) -> Result<Vec<Engine>, FleetError>
    ensures opens { IfOk result (λ engines. OpensJournals runs (R.view rack.old) (length runs) (R.view rack.new) engines.items) }
    ensures refused { IfErr result (λ error. RefusesJournalAt error runs (R.view rack.old) (R.view rack.new)) }
{
    let mut engines = Vec::new(alloc);
    let mut place = 0u8;
    for (run, setup) in runs.into_list() {
        match open_next(alloc, rack, &mut engines, place, run, setup) {
            Ok(()) => {}
            Err(error) => return Err(error),
        }
        place = (place + 1).min(15);
    }
    Ok(engines)
}

/// Opens the journals of the runs, by place, and then the files of the filters in order. It writes nothing.
pub(crate) fn open_files<R: Rack>(
    alloc: Global,
    rack: &mut R,
    runs: FleetRuns,
) -> Result<(Vec<Engine>, Filters), FleetError>
    ensures opens { IfOk result (λ files. AreFleetOpen runs (R.view rack.old) (R.view rack.new) files.0.items files.1) }
    ensures refused { IfErr result (λ error. RefusesFleetOpening error runs (R.view rack.old) (R.view rack.new)) }
{
    let engines = match open_journals(alloc, rack, runs) {
        Ok(engines) => engines,
        Err(error) => return Err(error),
    };
    match Filters::open_on(alloc, rack) {
        Ok(filters) => Ok((engines, filters)),
        Err(error) => Err(FleetError::of(0, 0, error)),
    }
}

/// What follows once all files are open: no filter has an act of a run whose journal is empty, the clock is asked for the greatest moment of a
/// last record, and the fleet runs. At most `most` records are appended.
pub(crate) fn run_opened<R: Rack>(
    alloc: Global,
    rack: &mut R,
    engines: Vec<Engine>,
    filters: Filters,
    most: u64,
) -> Result<FleetClose, FleetError>
    requires few { length engines.items ≤ 16 }
    requires enough { 1 ≤ length engines.items }
    requires stands { EachRun engines.items (StandsAt (R.view rack.old)) }
    requires filters { AreFilters filters (R.view rack.old) }
    requires puts { EachRun engines.items (λ place v. v.puts ≡ []) }
    ensures ended { (own : ℕ → Own) (notes : Shared) (k : ℕ) → IsNewTo most notes
        → EndedAt result (R.view rack.new) (at (R.view rack.old) engines.items own filters notes opened k) }
{
    if let Some((run, agent)) = first_used(&engines, &filters) {
        return Err(FleetError::RunUsed { run, agent });
    }
    let last = last_moment(&engines);
    match reach(rack, last) {
        Ok(Some(now)) => {
            let mut fleet = Fleet {
                alloc,
                engines,
                filters,
                now,
                left: most,
                turn: 0,
                ignored: 0,
            };
            fleet.run(rack)
        }
        Ok(None) => Ok(FleetClose::Waiting { due: last }),
        Err(error) => Err(FleetError::of(0, 0, error)),
    }
}
