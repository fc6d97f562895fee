// Reading texts.
ghost use Rattle.std.specs.Prelude.{◌≡◌, IfOk};
ghost use Rattle.cacao_json.specs.Tree.{data_of};
ghost use Rattle.cacao_book_shape.specs.Members.{maybe_text, some_text, texts_at};

use crate::texts::Texts;
use cacao_book_shape::{items_at, some_text, text_at, text_or_empty};
use cacao_json::{Text, Tree};
use std::alloc::{AllocError, Global};

/// The text of a member.
pub(crate) fn read_text(alloc: Global, tree: &Tree, name: &str) -> Result<Option<Text>, AllocError>
    ensures { IfOk result (λ text. text ≡ maybe_text name.now (data_of tree.now)) }
{
    match text_at(tree, name) {
        Some(text) => {
            let text = Text::from_str(alloc, text)?;
            Ok(Some(text))
        }
        None => Ok(None),
    }
}

/// The text under a name, and the empty one where there is none.
pub(crate) fn read_some_text(alloc: Global, tree: &Tree, name: &str) -> Result<Text, AllocError>
    ensures { IfOk result (λ text. text ≡ some_text name.now (data_of tree.now)) }
{
    let text = Text::from_str(alloc, some_text(tree, name))?;
    Ok(text)
}

/// The texts of the list under a name.
pub(crate) fn read_texts(alloc: Global, tree: &Tree, name: &str) -> Result<Texts, AllocError>
    ensures { IfOk result (λ texts. texts ≡ texts_at name.now (data_of tree.now)) }
{
    let mut texts = Vec::new(alloc);
    for item in items_at(tree, name) {
        texts.push(Text::from_str(alloc, text_or_empty(item))?)?;
    }
    Ok(Texts::from_vec(texts))
}
