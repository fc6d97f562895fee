// Why an end of a wire refuses.
ghost use Rattle.std.specs.Prelude.{◌≡◌, IsSome, Some};
ghost use Rattle.oc2_wire.specs.Errors.{wire_error};

use flow_core::LimitKind;
use flow_world_parts::WorldError;
use thiserror::Error;

/// Why an end of a wire did not open its files, or did not go on.
#[derive(Clone, Copy, Debug, Drop, Error, PartialEq, Eq)]
pub enum WireError {
    /// The disk failed.
    #[error("the disk failed")]
    Disk,
    /// The bytes of a file stand for no list, or the entry with its gate at this place, in bytes, may not follow those before it.
    #[error("file {file} is damaged at {place}")]
    Damaged { file: u8, place: u64 },
    /// The journal holds the run with the first number, and the other one was asked for.
    #[error("run {held} in place of {asked}")]
    OtherRun { held: u64, asked: u64 },
    /// The journal holds a run of other playbooks: the first that differs, or their number where only the bindings do.
    #[error("another playbook {index}")]
    OtherBook { index: u32 },
    /// A limit would be passed.
    #[error("a limit is passed")]
    Limit { what: LimitKind },
    /// A line could not be said.
    #[error("a line could not be said")]
    Say,
    /// 1,000,000 lines that were passed over, or commands without a new act.
    #[error("too much changed nothing")]
    Flooded,
    /// A line of more than 1,048,610 bytes came.
    #[error("a line is too long")]
    TooLong,
    /// The link failed.
    #[error("the link failed")]
    Link,
    /// Memory was refused.
    #[error("out of memory")]
    Memory,
}

/// The refusal of an end whose part of a session refused; beside no filter none finds that a filter has acts of its run.
pub fn of_world(error: WorldError) -> WireError
    requires { IsSome (wire_error error) }
    ensures { wire_error error ≡ Some result }
{
    match error {
        WorldError::Disk => WireError::Disk,
        WorldError::Damaged { file, place } => WireError::Damaged { file, place },
        WorldError::OtherRun { held, asked } => WireError::OtherRun { held, asked },
        WorldError::OtherBook { index } => WireError::OtherBook { index },
        WorldError::RunUsed { .. } => unreachable!(),
        WorldError::Limit { what } => WireError::Limit { what },
        WorldError::Say => WireError::Say,
        WorldError::Memory => WireError::Memory,
    }
}
