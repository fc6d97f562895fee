// How a fleet closes.

/// How a fleet closes that no call refused.
#[derive(Clone, Copy, Drop, PartialEq, Eq)]
pub enum FleetClose {
    /// Every run has ended; the number of the first, by place, that did not end well.
    Ended { failed: Option<u64> },
    /// As many records were appended as may be, and a run is to begin or goes on.
    Paused,
    /// The clock was asked for this moment, in milliseconds, and answered an earlier one.
    Waiting { due: u64 },
    /// 1,000,000 parcels changed no journal.
    Flooded,
    /// Nothing is due for any run that goes on; the number of the first, by place, with an open question, and its least issue.
    Asked { run: u64, issue: u32 },
}
