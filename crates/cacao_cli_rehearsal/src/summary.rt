// What is counted.

/// What is counted of a rehearsal whose run has ended well.
#[derive(Clone, Copy, Drop, PartialEq, Eq)]
pub struct Summary {
    /// The records of the run.
    pub records: u32,
    /// The acts of all filters.
    pub acts: u64,
    /// The rules that the filters hold in the end.
    pub rules: u32,
}
