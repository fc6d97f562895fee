// Reading arguments of actions as the names of variables that they mean.
ghost use Rattle.std.specs.Prelude.{◌≡◌, All, IfOk};
ghost use Rattle.cacao_json.specs.Tree.{data_of};
ghost use Rattle.cacao_book_shape.specs.Members.{TextFits, text_of as text_of_data, items_at};
ghost use Rattle.cacao_book_shape.specs.Shape.{IsArgument};
ghost use Rattle.cacao_book.specs.Books.{argument, arguments_at};

use cacao_book_shape::{items_at, text_or_empty};
use cacao_json::Tree;
use cacao_vars::{Name, Names};
use std::alloc::{AllocError, Global};

// The name that an argument means.
fn argument_name(text: &str) -> &str
    ensures { result.now ≡ argument text.now }
{
    match text.split_once(':') {
        Some((name, _)) => name,
        None => text,
    }
}

// The name that an item means.
fn read_name(alloc: Global, item: &Tree) -> Result<Name, AllocError>
    requires { TextFits IsArgument (data_of item.now) }
    ensures { IfOk result (λ name. name ≡ argument (text_of_data (data_of item.now))) }
{
    let name = Name::new(alloc, argument_name(text_or_empty(item)))?;
    Ok(name)
}

/// The names of the arguments in the list under a name; none where there is no list.
pub(crate) fn read_arguments(alloc: Global, tree: &Tree, name: &str) -> Result<Names, AllocError>
    requires { All (TextFits IsArgument) (items_at name.now (data_of tree.now)) }
    ensures { IfOk result (λ names. names ≡ arguments_at name.now (data_of tree.now)) }
{
    let mut names = Vec::new(alloc);
    for item in items_at(tree, name) {
        names.push(read_name(alloc, item)?)?;
    }
    Ok(Names::from_vec(names))
}
