// What names of playbooks ask for behind `explain`.
ghost use Rattle.std.specs.Prelude.{◌≡◌, ◌∷◌, map, string_bytes};
ghost use Rattle.std.specs.List.{list_all};
ghost use Rattle.cacao_view_words.specs.Asked.{request_by};
ghost use Rattle.cacao_view_words.specs.Requests.{explain_books_asks, is_book};

use crate::rule::is_like_rule;
use crate::wanted::Wanted;
use crate::words::{Request, is_name};

/// The first break of the playbooks in the files of these names is asked for, if each is a name.
pub(crate) fn explain_books_asks<'w>(book: &'w str, libraries: &'w [String]) -> Request<'w>
    ensures { request_by result ≡ explain_books_asks (book.entry.now ∷ map string_bytes libraries.entry.now) }
{
    if is_book(book.as_bytes()) && are_books(libraries) {
        Request::ExplainBooks { book, libraries }
    } else {
        Request::Lacks(Wanted::Rule)
    }
}

/// Whether this is the name of a file, and is not like that of a rule.
fn is_book(word: &[u8]) -> bool
    ensures { result ≡ is_book word.now }
{
    is_name(word) && !is_like_rule(word)
}

/// Whether each of these is.
fn are_books(names: &[String]) -> bool
    ensures { result ≡ list_all is_book (map string_bytes names.now) }
{
    each_is_book(names)
}

fn each_is_book(names: &[String]) -> bool
    ensures { result ≡ list_all (λ name. is_book (string_bytes name)) names.now }
{
    names.iter().all(|name| is_book(name.as_bytes()))
}
