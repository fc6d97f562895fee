// Issues: what was sent to a filter, and what an operator was asked.
use cacao_site::Bytes;

/// How an issue stands.
#[derive(Clone, Copy, PartialEq, Eq)]
pub enum IssuePhase {
    /// It waits for its end.
    Waiting,
    /// Its filter replied, with this status.
    Answered { status: u16 },
    /// An operator told how it ended, with this status.
    Told { status: u16 },
    /// Its deadline passed.
    Expired,
}

/// A command that was sent, or a text by which an operator was asked.
#[derive(Drop)]
pub struct Issue {
    /// The task that sent it.
    pub task: u32,
    /// The number of the filter, from 1 to 16; 0 for an operator.
    pub agent: u8,
    /// The bytes of the command, or the text in UTF-8.
    pub bytes: Bytes,
    /// When it was sent, in milliseconds.
    pub moment: u64,
    pub phase: IssuePhase,
}
