// Why a fleet refuses.
ghost use Rattle.std.specs.Prelude.{◌≡◌, ◌≤◌};
ghost use Rattle.cacao_site.specs.RunViews.{file_of};
ghost use Rattle.flow_fleet_steps.specs.Errors.{fleet_refusal};

use flow_fleet_sessions::WorldError;
use flow_world_steps::LimitKind;
use thiserror::Error;

/// Why a fleet did not open its files, or did not go on.
#[derive(Clone, Copy, Debug, Drop, Error, PartialEq, Eq)]
pub enum FleetError {
    /// The disk failed.
    #[error("the disk failed")]
    Disk,
    /// The bytes of a file stand for no list, or the entry with its gate at this place, in bytes, may not follow those before it.
    /// Run file k is 16 + k.
    #[error("file {file} is damaged at {place}")]
    Damaged { file: u8, place: u64 },
    /// A journal holds the run with the first number, and the other one was asked for.
    #[error("run {held} in place of {asked}")]
    OtherRun { held: u64, asked: u64 },
    /// The journal of this run has other playbooks: the first that differs, or their number where only the bindings do.
    #[error("another playbook {index} of run {run}")]
    OtherBook { run: u64, index: u32 },
    /// The journal of this run is empty, and this is the least filter that has an act of it.
    #[error("filter {agent} has acts of run {run}")]
    RunUsed { run: u64, agent: u8 },
    /// A limit would be passed.
    #[error("a limit is passed")]
    Limit { what: LimitKind },
    /// A line could not be said.
    #[error("a line could not be said")]
    Say,
    /// Memory was refused.
    #[error("out of memory")]
    Memory,
}

/// The file of a rack that holds the journal of the run at this place.
pub fn file_of(place: u8) -> u8
    requires { place ≤ 15 }
    ensures { result ≡ file_of place }
{
    if place == 0 { 0 } else { 16 + place }
}

impl FleetError {
    /// The refusal of a fleet where that of the run with this number, at this place, is so.
    pub fn of(place: u8, run: u64, error: WorldError) -> FleetError
        requires { place ≤ 15 }
        ensures { result ≡ fleet_refusal place run error }
    {
        match error {
            WorldError::Disk => FleetError::Disk,
            WorldError::Damaged { file, place: at } => damaged(place, file, at),
            WorldError::OtherRun { held, asked } => FleetError::OtherRun { held, asked },
            WorldError::OtherBook { index } => FleetError::OtherBook { run, index },
            WorldError::RunUsed { agent } => FleetError::RunUsed { run, agent },
            WorldError::Limit { what } => FleetError::Limit { what },
            WorldError::Say => FleetError::Say,
            WorldError::Memory => FleetError::Memory,
        }
    }
}

/// A file of a run's view is damaged: its file 0 is its journal.
fn damaged(place: u8, file: u8, at: u64) -> FleetError
    requires { place ≤ 15 }
    ensures { result ≡ fleet_refusal place 0 (WorldError.Damaged file at) }
{
    if file == 0 {
        return FleetError::Damaged {
            file: file_of(place),
            place: at,
        };
    }
    FleetError::Damaged { file, place: at }
}
