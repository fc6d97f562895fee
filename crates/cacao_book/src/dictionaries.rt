// Reading variable dictionaries.
ghost use Rattle.std.specs.Prelude.{◌≡◌, IfOk};
ghost use Rattle.cacao_vars.specs.Names.{IsName};
ghost use Rattle.cacao_json.specs.Tree.{data_of, pair_data};
ghost use Rattle.cacao_book_shape.specs.Members.{MayHave, maybe_text};
ghost use Rattle.cacao_book_shape.specs.Shape.{IsDictionary};
ghost use Rattle.cacao_book.specs.Books.{var_of, vars_at};

use cacao_book_shape::{flag_at, members_at, some_text, text_at};
use cacao_json::{Pair, Tree};
use cacao_vars::{Kind, Name, Var, Vars, Word};
use std::alloc::{AllocError, Global};

// The text of a member as a value.
fn read_word(alloc: Global, tree: &Tree, name: &str) -> Result<Option<Word>, AllocError>
    ensures { IfOk result (λ word. word ≡ maybe_text name.now (data_of tree.now)) }
{
    match text_at(tree, name) {
        Some(text) => {
            let word = Word::new(alloc, text)?;
            Ok(Some(word))
        }
        None => Ok(None),
    }
}

// The variable that a member declares.
fn read_var(alloc: Global, pair: &Pair) -> Result<Var, AllocError>
    requires { IsName (pair_data pair.now).0 }
    ensures { IfOk result (λ var. var ≡ var_of (pair_data pair.now)) }
{
    let tree = &pair.tree;
    let name = Name::new(alloc, pair.name.text())?;
    let kind = Kind::read(alloc, some_text(tree, "type"))?;
    let worth = read_word(alloc, tree, "value")?;
    Ok(Var {
        name,
        kind,
        worth,
        constant: flag_at(tree, "constant"),
        external: flag_at(tree, "external"),
    })
}

/// The variables that the dictionary under a name declares; none where there is no dictionary.
pub(crate) fn read_vars(alloc: Global, tree: &Tree, name: &str) -> Result<Vars, AllocError>
    requires { MayHave name.now IsDictionary (data_of tree.now) }
    ensures { IfOk result (λ vars. vars ≡ vars_at name.now (data_of tree.now)) }
{
    let mut vars = Vec::new(alloc);
    for pair in members_at(tree, name) {
        vars.push(read_var(alloc, pair)?)?;
    }
    Ok(Vars::from_vec(vars))
}
