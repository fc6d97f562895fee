// How a session closes.

/// How a session closes that no call refused.
#[derive(Clone, Copy, Drop, PartialEq, Eq)]
pub enum Close {
    /// The run has ended, well or not.
    Ended { well: bool },
    /// As many records were appended as may be, and the run goes on.
    Paused,
    /// The clock was asked for this moment, in milliseconds, and answered an earlier one.
    Waiting { due: u64 },
    /// 1,000,000 parcels changed neither the engine's journal nor a filter's.
    Flooded,
    /// Nothing is due, and no open question has an answer; this is the least such issue.
    Asked { issue: u32 },
}
