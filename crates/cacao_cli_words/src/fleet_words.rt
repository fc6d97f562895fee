// What `fleet` asks for.
ghost use Rattle.std.specs.Prelude.{◌≡◌, ◌≤◌, length, map, true};
ghost use Rattle.cacao_cli_words.specs.Requests.{are_apart};
ghost use Rattle.cacao_cli_words.specs.RunBooks.{run_of};

use crate::run_book::RunBook;

/// What `fleet` asks for.
#[derive(Drop)]
pub struct FleetWords<'w> {
    /// The runs, 1 to 16, no number twice.
    pub runs: Vec<RunBook<'w>>,
    /// The most records that all of them together may append, 1 to 1,000,000,000.
    pub most: u64,
    pub ghost some: { 1 ≤ length runs.items },
    pub ghost few: { length runs.items ≤ 16 },
    pub ghost apart: { are_apart (map run_of runs.items) ≡ true },
    pub ghost steps: { 1 ≤ most },
}
