// A whole fleet.
ghost use Rattle.std.specs.Prelude.{◌≡◌, ◌≢◌, ◌≤◌, Err, IfOk, IfErr, IsSome, IsTrue};
ghost use Rattle.flow_fleet_laws.specs.Events.{Events};
ghost use Rattle.flow_fleet_laws.specs.Fleets.{IsFleetStart, KeepsEach};
ghost use Rattle.flow_fleet_laws.specs.Speeches.Form.{with_numbers};
ghost use Rattle.flow_fleet_steps.specs.Openings.{numbers};
ghost use Rattle.flow_fleet.specs.Fleets.{FleetClosed, FleetRefused};

use crate::opening::{open_files, run_opened};
use crate::runs::FleetRuns;
use cacao_site::Rack;
use flow_fleet_steps::{FleetClose, FleetError};
use std::alloc::Global;

/// A fleet: runs side by side over the same filters, each with a journal of its own. Their files are opened, and they take turns until they
/// close or a call refuses. At most `most` records are appended, of all runs together. Moments are in milliseconds.
pub fn fleet<R: Rack>(
    alloc: Global,
    rack: &mut R,
    runs: FleetRuns,
    most: u64,
) -> Result<FleetClose, FleetError>
    requires some { 1 ≤ most }
    ensures closed { IfOk result (λ close. FleetClosed close runs most (R.view rack.old) (R.view rack.new)) }
    ensures refused { IfErr result (λ error. FleetRefused error runs most (R.view rack.old) (R.view rack.new)) }
    // No answer but a failure of the disk counts a fault.
    ensures steady { result ≢ Err FleetError.Disk → (R.view rack.new).disk.faults ≡ (R.view rack.old).disk.faults }
    // Where the rack tells its files and its parcels, all of it is calls in a row of these runs.
    ensures events { IsTrue (R.view rack.old).disk.told → IsSome (R.view rack.old).link.puts → IsSome (R.view rack.old).link.pending
        → Events with_numbers (numbers runs) (R.view rack.old) (R.view rack.new) }
    ensures agreement { IsFleetStart (R.view rack.old) (numbers runs) → KeepsEach (numbers runs) (R.view rack.old) (R.view rack.new) }
{
    runs.law();
    match open_files(alloc, rack, runs) {
        Ok((engines, filters)) => run_opened(alloc, rack, engines, filters, most),
        Err(error) => Err(error),
    }
}
