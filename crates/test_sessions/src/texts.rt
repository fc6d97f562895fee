// What came of a call, as text.
use flow_core::LimitKind;
use flow_engine::EngineError;
use flow_fleet::{FleetClose, FleetError};
use flow_world::{Close, WorldError};
use std::alloc::{AllocError, Global};

/// The answer to a row that names nothing that can be played.
pub(crate) fn no_row(alloc: Global) -> Result<String, AllocError> {
    String::from_str(alloc, "no such row")
}

/// Why an engine refused.
pub(crate) fn engine_error(alloc: Global, error: EngineError) -> Result<String, AllocError> {
    match error {
        EngineError::Disk => String::from_str(alloc, "disk"),
        EngineError::Damaged { place } => format!(in alloc; "damaged {place}"),
        EngineError::OtherRun { held, asked } => format!(in alloc; "other run {held} {asked}"),
        EngineError::OtherBook { index } => format!(in alloc; "other playbook {index}"),
        EngineError::Limit {
            what: LimitKind::Tasks,
        } => String::from_str(alloc, "limit tasks"),
        EngineError::Limit { .. } => String::from_str(alloc, "limit"),
        EngineError::Broken => String::from_str(alloc, "broken"),
        EngineError::Memory => String::from_str(alloc, "memory"),
    }
}

/// How a session closed.
pub(crate) fn close(alloc: Global, close: Close) -> Result<String, AllocError> {
    match close {
        Close::Ended { well: true } => String::from_str(alloc, "ended well"),
        Close::Ended { well: false } => String::from_str(alloc, "ended failed"),
        Close::Paused => String::from_str(alloc, "paused"),
        Close::Waiting { due } => format!(in alloc; "waiting {due}"),
        Close::Flooded => String::from_str(alloc, "flooded"),
        Close::Asked { issue } => format!(in alloc; "asked {issue}"),
    }
}

/// Why a session refused.
pub(crate) fn session_error(alloc: Global, error: WorldError) -> Result<String, AllocError> {
    match error {
        WorldError::Disk => String::from_str(alloc, "disk failed"),
        WorldError::Damaged { file, place } => format!(in alloc; "damaged {file} {place}"),
        WorldError::OtherRun { held, asked } => format!(in alloc; "other run {held} {asked}"),
        WorldError::OtherBook { index } => format!(in alloc; "other playbook {index}"),
        WorldError::RunUsed { agent } => format!(in alloc; "run used {agent}"),
        WorldError::Limit { .. } => String::from_str(alloc, "limit"),
        WorldError::Say => String::from_str(alloc, "not said"),
        WorldError::Memory => String::from_str(alloc, "memory"),
    }
}

/// How a fleet closed.
pub(crate) fn fleet_close(alloc: Global, close: FleetClose) -> Result<String, AllocError> {
    match close {
        FleetClose::Ended { failed: None } => String::from_str(alloc, "ended well"),
        FleetClose::Ended { failed: Some(run) } => format!(in alloc; "ended failed {run}"),
        FleetClose::Paused => String::from_str(alloc, "paused"),
        FleetClose::Waiting { due } => format!(in alloc; "waiting {due}"),
        FleetClose::Flooded => String::from_str(alloc, "flooded"),
        FleetClose::Asked { run, issue } => format!(in alloc; "asked {run} {issue}"),
    }
}

/// Why a fleet refused.
pub(crate) fn fleet_error(alloc: Global, error: FleetError) -> Result<String, AllocError> {
    match error {
        FleetError::Disk => String::from_str(alloc, "disk failed"),
        FleetError::Damaged { file, place } => format!(in alloc; "damaged {file} {place}"),
        FleetError::OtherRun { held, asked } => format!(in alloc; "other run {held} {asked}"),
        FleetError::OtherBook { run, index } => format!(in alloc; "other playbook {run} {index}"),
        FleetError::RunUsed { run, agent } => format!(in alloc; "run used {run} {agent}"),
        FleetError::Limit { .. } => String::from_str(alloc, "limit"),
        FleetError::Say => String::from_str(alloc, "not said"),
        FleetError::Memory => String::from_str(alloc, "memory"),
    }
}
