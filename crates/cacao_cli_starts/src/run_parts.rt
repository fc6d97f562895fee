// The files of a run, and its texts.
ghost use Rattle.std.specs.Prelude.{◌≡◌, ◌<◌, ◌++◌, All, IfOk, IsSome, None, OnOk, length, map, option_map, option_to_list, true, false};
ghost use Rattle.flow_core.specs.Setups.{IsReadable};
ghost use Rattle.cacao_cli_words.specs.Commands.{run_request};
ghost use Rattle.cacao_cli_looks.specs.Command.{text_of};
ghost use Rattle.cacao_cli_ends.specs.Files.{run_names};
ghost use Rattle.cacao_cli_starts.specs.Starting.{IsStartFrom};
ghost use Rattle.cacao_cli_ends.specs.Work.{bytes_of};

use crate::run_texts::RunTexts;
use cacao_cli_looks::FileText;
use cacao_cli_words::RunWords;
use cacao_site::Bytes;
use std::alloc::{AllocError, Global};

/// The bytes of these texts, in order.
fn bytes_of(alloc: Global, texts: Vec<FileText<'_>>) -> Result<Vec<Bytes>, AllocError>
    ensures same { IfOk result (λ list. list.items ≡ map (λ text. text.bytes) texts.entry.items) }
    ensures short { IfOk result (λ list. All IsReadable list.items) }
{
    texts.into_iter().map(|text| text.bytes).collect(alloc)
}

/// The texts of a run, from those of its files in the order of `names_of`.
pub(crate) fn split<'w>(
    alloc: Global,
    wanted: &RunWords<'w>,
    texts: Vec<FileText<'w>>,
) -> Result<RunTexts<'w>, AllocError>
    requires many { length texts.items ≡ length (run_names (run_request wanted.now)) }
    ensures { IfOk result (λ parts. IsStartFrom (run_request wanted.entry.now) (map text_of texts.entry.items) parts) }
{
    let mut texts = texts;
    let answers = last_if(&mut texts, wanted.answers.is_some());
    let bind = last_if(&mut texts, wanted.bind.is_some());
    let bind = bytes_or_none(alloc, bind)?;
    let books = bytes_of(alloc, texts)?;
    Ok(RunTexts {
        books,
        bind,
        answers,
    })
}

/// The bytes of a text, if there is one, and none else.
fn bytes_or_none(alloc: Global, text: Option<FileText<'_>>) -> Result<Bytes, AllocError>
    ensures same { IfOk result (λ bytes. bytes ≡ bytes_of (option_map text_of text.entry)) }
    ensures short { IfOk result IsReadable }
{
    match text {
        Some(text) => Ok(text.bytes),
        None => Bytes::from_slice(alloc, b""),
    }
}

/// The last text, taken out, if its file is named.
fn last_if<'w>(texts: &mut Vec<FileText<'w>>, named: bool) -> Option<FileText<'w>>
    ensures items { texts.old.items ≡ texts.new.items ++ option_to_list result }
    ensures none { named ≡ false → result ≡ None }
    ensures some { named ≡ true → 0 < length texts.old.items → IsSome result }
{
    if named { texts.pop() } else { None }
}

/// The names of the files of a run, in the order in which they are read: the playbooks, the bindings, the answers.
pub(crate) fn names_of<'w>(alloc: Global, wanted: &RunWords<'w>) -> Result<Vec<&'w str>, AllocError>
    ensures { IfOk result (λ names. map (λ name. name.now) names.items ≡ run_names (run_request wanted.entry.now)) }
{
    let mut names = Vec::from_slice(alloc, wanted.books.as_slice())?;
    push_if(&mut names, wanted.bind)?;
    push_if(&mut names, wanted.answers)?;
    Ok(names)
}

/// Puts a name behind the others, if there is one.
fn push_if<'w>(names: &mut Vec<&'w str>, name: Option<&'w str>) -> Result<(), AllocError>
    ensures { OnOk result (names.new.items ≡ names.old.items ++ option_to_list name.entry) }
{
    if let Some(name) = name {
        names.push(name)?;
    }
    Ok(())
}
