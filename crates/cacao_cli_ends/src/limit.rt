// What has a limit.
use std::fmt;

/// What has a limit.
#[derive(Clone, Copy)]
pub enum Limit {
    /// The bytes of a file that is read.
    FileBytes,
    /// The playbooks of one call.
    BookCount,
    /// The tasks of a run.
    TaskCount,
    /// The bytes of a file of a run.
    JournalBytes,
    /// A moment, in milliseconds.
    LastMoment,
    /// The bytes of a filled command.
    CommandBytes,
    /// The bytes of a line between two processes.
    LineBytes,
}

impl Limit {
    ghost use Rattle.std.specs.Prelude.{◌≡◌};
    ghost use Rattle.cacao_cli_ends.specs.Ends.{limit_name, most};

    /// The name that is said of it.
    pub fn name(self) -> &'static str
        ensures { result.now ≡ limit_name self }
    {
        match self {
            Limit::FileBytes => "file",
            Limit::BookCount => "books",
            Limit::TaskCount => "tasks",
            Limit::JournalBytes => "journal",
            Limit::LastMoment => "moment",
            Limit::CommandBytes => "command",
            Limit::LineBytes => "line",
        }
    }

    /// The most that is taken.
    pub fn most(self) -> u64
        ensures { result ≡ most self }
    {
        match self {
            Limit::FileBytes => 1_048_576,
            Limit::BookCount => 16,
            Limit::TaskCount => 1_000_000,
            Limit::JournalBytes => 67_108_864,
            Limit::LastMoment => 9_000_000_000_000_000,
            Limit::CommandBytes => 1_048_576,
            Limit::LineBytes => 1_048_610,
        }
    }
}

impl fmt::Display for Limit {
    ghost use Rattle.std.specs.Prelude.{Some};
    ghost use Rattle.cacao_cli_ends.specs.Ends.{limit_text};

    ghost output = { λ limit. Some (limit_text limit) };

    fn fmt<W: fmt::Write>(&self, f: &mut fmt::Formatter<W>) -> fmt::Result {
        let name = self.name();
        let most = self.most();
        write!(f, "{name} {most}")
    }
}
