// What is said of refusals.
use flow_core::{FlowError, LimitKind, SetupError};
use std::alloc::{AllocError, Global};

/// Why a record was not taken.
pub(crate) fn why_not_taken(error: FlowError) -> &'static str {
    match error {
        FlowError::NotEnabled => "refused: not enabled",
        FlowError::Limit {
            what: LimitKind::Tasks,
        } => "refused: limit tasks",
        FlowError::Limit {
            what: LimitKind::Command,
        } => "refused: limit command",
        FlowError::Limit { .. } => "refused: limit",
        FlowError::Memory => "refused: memory",
    }
}

/// Why there is no setup.
pub(crate) fn why_no_setup(alloc: Global, error: SetupError) -> Result<String, AllocError> {
    match error {
        SetupError::Unreadable { file, .. } => format!(in alloc; "unreadable: {file}"),
        SetupError::Broken(told) => format!(in alloc; "rule broken: {}", told.rule),
        SetupError::Bind { rule } => format!(in alloc; "rule of bindings broken: {rule}"),
        SetupError::Memory => String::from_str(alloc, "memory"),
    }
}
