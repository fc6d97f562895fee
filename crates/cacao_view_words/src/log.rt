// What the words behind `log` ask for.
ghost use Rattle.std.specs.Prelude.{◌≡◌, ◌∷◌, [], map, string_bytes};
ghost use Rattle.cacao_view_words.specs.Asked.{request_by};
ghost use Rattle.cacao_view_words.specs.Requests.{log_asks, logs_file};

use crate::wanted::Wanted;
use crate::words::{Request, is_name};

/// What `--json` and the name of a file ask for, in either order, each at most once.
pub(crate) fn log_asks<'w>(names: &'w [String]) -> Request<'w>
    ensures { request_by result ≡ log_asks (map string_bytes names.entry.now) }
{
    match names {
        [] => Request::Log {
            json: false,
            engine: None,
        },
        [word] => one_asks(word.as_str()),
        [first, second] => two_ask(first.as_str(), second.as_str()),
        _ => Request::Lacks(Wanted::Log),
    }
}

/// What one word behind `log` asks for.
fn one_asks<'w>(word: &'w str) -> Request<'w>
    ensures { request_by result ≡ log_asks (word.entry.now ∷ []) }
{
    if word == "--json" {
        Request::Log {
            json: true,
            engine: None,
        }
    } else {
        file_asks(false, word)
    }
}

/// What two words behind `log` ask for.
fn two_ask<'w>(first: &'w str, second: &'w str) -> Request<'w>
    ensures { request_by result ≡ log_asks (first.entry.now ∷ second.entry.now ∷ []) }
{
    if first == "--json" {
        return file_asks(true, second);
    }
    if second == "--json" {
        return file_asks(true, first);
    }
    Request::Lacks(Wanted::Log)
}

/// The records in the file of this name are asked for, if it is a name.
fn file_asks<'w>(json: bool, word: &'w str) -> Request<'w>
    ensures { request_by result ≡ logs_file json word.entry.now }
{
    if is_name(word.as_bytes()) {
        Request::Log {
            json,
            engine: Some(word),
        }
    } else {
        Request::Lacks(Wanted::Log)
    }
}
