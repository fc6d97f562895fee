// Commands that wait for a filter.
use cacao_site::Bytes;

/// A command of run 7 to filter 1, which comes at a moment, in milliseconds.
#[derive(Drop)]
pub(crate) struct Command {
    pub(crate) issue: u32,
    pub(crate) moment: u64,
    pub(crate) bytes: Bytes,
}
