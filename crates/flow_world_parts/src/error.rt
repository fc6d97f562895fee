// Why a session refuses.
ghost use Rattle.std.specs.Prelude.{◌≡◌, ◌≢◌};
ghost use Rattle.flow_world_steps.specs.EngineError.TheVariants as engine_error;
ghost use Rattle.flow_world_parts.specs.Errors.{MayRefuseAppend, append_refusal, opening_refusal};

use flow_world_steps::{EngineError, LimitKind};
use thiserror::Error;

/// Why a session did not open its files, or did not go on.
#[derive(Clone, Copy, Debug, Drop, Error, PartialEq, Eq)]
pub enum WorldError {
    /// The disk failed.
    #[error("the disk failed")]
    Disk,
    /// The bytes of a file stand for no list, or the entry with its gate at this place, in bytes, may not follow those before it.
    #[error("file {file} is damaged at {place}")]
    Damaged { file: u8, place: u64 },
    /// The journal holds the run with the first number, and the other one was asked for.
    #[error("run {held} in place of {asked}")]
    OtherRun { held: u64, asked: u64 },
    /// The journal holds a run of other playbooks: the first that differs, or their number where only the bindings do.
    #[error("another playbook {index}")]
    OtherBook { index: u32 },
    /// The journal is empty, and this is the least filter that has an act of the run.
    #[error("filter {agent} has acts of the run")]
    RunUsed { agent: u8 },
    /// A limit would be passed.
    #[error("a limit is passed")]
    Limit { what: LimitKind },
    /// A line could not be said.
    #[error("a line could not be said")]
    Say,
    /// Memory was refused.
    #[error("out of memory")]
    Memory,
}

/// The refusal of a session whose engine refused to append a record.
pub fn of_append(error: EngineError) -> WorldError
    requires { MayRefuseAppend error }
    ensures { result ≡ append_refusal error }
{
    match error {
        EngineError::Disk => WorldError::Disk,
        EngineError::Limit { what } => WorldError::Limit { what },
        EngineError::Memory => WorldError::Memory,
        EngineError::Damaged { .. } => unreachable!(),
        EngineError::OtherRun { .. } => unreachable!(),
        EngineError::OtherBook { .. } => unreachable!(),
        EngineError::Broken => unreachable!(),
    }
}

/// The refusal of a session whose journal could not be opened.
pub fn of_opening(error: EngineError) -> WorldError
    requires { error ≢ engine_error.Broken }
    ensures { result ≡ opening_refusal error }
{
    match error {
        EngineError::Disk => WorldError::Disk,
        EngineError::Damaged { place } => WorldError::Damaged { file: 0, place },
        EngineError::OtherRun { held, asked } => WorldError::OtherRun { held, asked },
        EngineError::OtherBook { index } => WorldError::OtherBook { index },
        EngineError::Limit { what } => WorldError::Limit { what },
        EngineError::Memory => WorldError::Memory,
        EngineError::Broken => unreachable!(),
    }
}
