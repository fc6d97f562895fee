// What was played, in numbers.

/// How many fleets were played, of how many runs, with how many calls; what came of these; and what they left.
#[derive(Clone, Copy)]
pub struct Counts {
    pub fleets: u64,
    pub runs: u64,
    pub calls: u64,
    /// Calls that refused, and those of them that were refused memory.
    pub refused: u64,
    pub memory: u64,
    /// Calls that closed before the runs had ended, as the clock stood or no record more was to be appended.
    pub cut: u64,
    /// Calls that ended before a question.
    pub asked: u64,
    pub records: u64,
    pub acts: u64,
    pub expired: u64,
    /// Parcels that were lost, doubled or held back.
    pub mishaps: u64,
}

impl Counts {
    pub fn none() -> Counts {
        Counts {
            fleets: 0,
            runs: 0,
            calls: 0,
            refused: 0,
            memory: 0,
            cut: 0,
            asked: 0,
            records: 0,
            acts: 0,
            expired: 0,
            mishaps: 0,
        }
    }
}

/// Adds to a count.
pub(crate) fn add(count: &mut u64, more: u64) {
    *count = count.saturating_add(more);
}
