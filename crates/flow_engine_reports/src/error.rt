// Why a file has no report.

/// Why nothing can be said of the entries of the engine's file.
#[derive(Clone, Copy, Drop, PartialEq, Eq)]
pub enum ReportError {
    /// The entry whose gate stands at this place, in bytes, is the first that is no record of the run.
    Damaged { place: u64 },
    /// The run would have more than 1,000,000 tasks.
    TooManyTasks,
    Memory,
}
