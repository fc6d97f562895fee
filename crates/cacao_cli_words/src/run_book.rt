// A run of a fleet, as the words name it.
ghost use Rattle.std.specs.Prelude.{◌≤◌};

/// The number of a run, 1 to 9,007,199,254,740,991, and the name of its playbook.
#[derive(Drop)]
pub struct RunBook<'w> {
    pub run: u64,
    pub book: &'w str,
    pub ghost numbered: { 1 ≤ run },
    pub ghost within: { run ≤ 9_007_199_254_740_991 },
}
