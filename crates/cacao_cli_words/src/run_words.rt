// What `run` and `pair` ask for.
ghost use Rattle.std.specs.Prelude.{◌≤◌};

use crate::book_names::BookNames;

/// What `run` and `pair` ask for.
#[derive(Drop)]
pub struct RunWords<'w> {
    /// The run's number, 1 to 9,007,199,254,740,991.
    pub run: u64,
    /// The most records that the session may append, 1 to 1,000,000,000.
    pub most: u64,
    /// The name of the file of bindings.
    pub bind: Option<&'w str>,
    /// The name of the file of operators' answers.
    pub answers: Option<&'w str>,
    /// The playbook that is run, and those that it may call.
    pub books: BookNames<'w>,
    pub ghost some: { 1 ≤ most },
    pub ghost numbered: { 1 ≤ run },
    pub ghost within: { run ≤ 9_007_199_254_740_991 },
}
