// How a call of the program ends.
use cacao_view_words::Wanted;

/// How a call of the program ends.
#[derive(Drop)]
pub(crate) enum End<'w> {
    /// All was said before.
    Done,
    /// The words have no reading, and this was wanted.
    NotUnderstood { wanted: Wanted },
    /// A line could not be said.
    Unsaid,
    /// As a command of `cacao` ends.
    As { end: cacao_cli_ends::End<'w> },
}
