// The texts of a run.
ghost use Rattle.std.specs.Prelude.{All};
ghost use Rattle.flow_core.specs.Setups.{IsReadable};

use cacao_cli_looks::FileText;
use cacao_site::Bytes;

/// The texts that a run is given.
#[derive(Drop)]
pub struct RunTexts<'w> {
    pub books: Vec<Bytes>,
    /// The text of bindings, empty where no file of them is named.
    pub bind: Bytes,
    /// The file of answers, if one is named.
    pub answers: Option<FileText<'w>>,
    pub ghost books_short: { All IsReadable books.items },
    pub ghost bind_short: { IsReadable bind },
}
