// What the words ask for.
ghost use Rattle.std.specs.Prelude.{◌≡◌, ◌∷◌, map, string_bytes};
ghost use Rattle.std.specs.List.{list_all};
ghost use Rattle.cacao_view_words.specs.Asked.{request_by};
ghost use Rattle.cacao_view_words.specs.Requests.{explain_asks, first_asks, graph_asks, help_asks, is_name, request, rule_or_book, version_asks};
ghost use Rattle.cacao_view_words.specs.Rules.{rule_in};

use crate::book_words::BookWords;
use crate::books::explain_books_asks;
use crate::log::log_asks;
use crate::options::preflight_asks;
use crate::rule::{Rule, rule_in};
use crate::topic::{Topic, topic_in};
use crate::wanted::Wanted;
use cacao_cli_words::NAME_LIMIT;

/// What the words ask the program to do.
#[derive(Clone, Copy)]
pub enum Request<'w> {
    /// To say the words of both programs.
    Help,
    /// To say what there is to know of this word.
    HelpWith(Topic),
    /// To say the version, and of which standards.
    Version,
    /// To say the records of a run again, as JSON or not: those in the file of this name, or in the engine's file of the disk.
    Log {
        json: bool,
        engine: Option<&'w str>,
    },
    /// To say the picture of the playbook in the file of this name, and of those that it may call.
    Graph {
        book: &'w str,
        libraries: &'w [String],
    },
    /// To say the picture of the run in the engine's file of the disk.
    GraphRun,
    /// To say this rule, and how a break of it is usually mended.
    Explain(Rule),
    /// To tell of the first break of the playbook in the file of this name, and of those that it may call.
    ExplainBooks {
        book: &'w str,
        libraries: &'w [String],
    },
    /// To tell what a run of the playbooks in the files of these names would come to, with the bindings in the file of this name.
    Preflight {
        bind: Option<&'w str>,
        books: BookWords<'w>,
    },
    /// To say what was wanted, since the words have no reading.
    Lacks(Wanted),
}

/// What the words after the program's name ask for. It takes no memory.
pub fn read_words<'w>(words: &'w [String]) -> Request<'w>
    ensures { request_by result ≡ request (map string_bytes words.entry.now) }
{
    match words {
        [] => Request::Help,
        [first, names @ ..] => first_asks(first.as_str(), names),
    }
}

/// What the names behind this first word ask for.
fn first_asks<'w>(first: &str, names: &'w [String]) -> Request<'w>
    ensures { request_by result ≡ first_asks first.entry.now (map string_bytes names.entry.now) }
{
    if first == "help" || first == "--help" || first == "-h" {
        return help_asks(names);
    }
    if first == "version" || first == "--version" {
        return version_asks(names);
    }
    if first == "log" {
        return log_asks(names);
    }
    if first == "graph" {
        return graph_asks(names);
    }
    if first == "explain" {
        return explain_asks(names);
    }
    if first == "preflight" {
        return preflight_asks(names);
    }
    Request::Lacks(Wanted::First)
}

fn help_asks<'w>(names: &'w [String]) -> Request<'w>
    ensures { request_by result ≡ help_asks (map string_bytes names.entry.now) }
{
    match names {
        [] => Request::Help,
        [word] => match topic_in(word.as_str()) {
            Some(topic) => Request::HelpWith(topic),
            None => Request::Lacks(Wanted::Topic),
        },
        _ => Request::Lacks(Wanted::Topic),
    }
}

fn version_asks<'w>(names: &'w [String]) -> Request<'w>
    ensures { request_by result ≡ version_asks (map string_bytes names.entry.now) }
{
    if names.is_empty() {
        Request::Version
    } else {
        Request::Lacks(Wanted::NoMore)
    }
}

/// Whether this is the name of a file.
pub(crate) fn is_name(word: &[u8]) -> bool
    ensures { result ≡ is_name word.now }
{
    match word {
        [first, ..] => word.len() <= NAME_LIMIT && *first != b'-',
        [] => false,
    }
}

fn graph_asks<'w>(names: &'w [String]) -> Request<'w>
    ensures { request_by result ≡ graph_asks (map string_bytes names.entry.now) }
{
    match names {
        [] => Request::GraphRun,
        [book, libraries @ ..] => books_asked(book.as_str(), libraries),
    }
}

/// The picture of the playbooks in the files of these names is asked for, if each is a name.
fn books_asked<'w>(book: &'w str, libraries: &'w [String]) -> Request<'w>
    ensures { request_by result ≡ graph_asks (book.entry.now ∷ map string_bytes libraries.entry.now) }
{
    if is_name(book.as_bytes()) && are_names(libraries) {
        Request::Graph { book, libraries }
    } else {
        Request::Lacks(Wanted::Graph)
    }
}

/// Whether each of these is the name of a file.
fn are_names(names: &[String]) -> bool
    ensures { result ≡ list_all is_name (map string_bytes names.now) }
{
    each_is_name(names)
}

fn each_is_name(names: &[String]) -> bool
    ensures { result ≡ list_all (λ name. is_name (string_bytes name)) names.now }
{
    names.iter().all(|name| is_name(name.as_bytes()))
}

fn explain_asks<'w>(names: &'w [String]) -> Request<'w>
    ensures { request_by result ≡ explain_asks (map string_bytes names.entry.now) }
{
    match names {
        [] => Request::Lacks(Wanted::Rule),
        [name] => rule_or_book(name.as_str()),
        [book, libraries @ ..] => explain_books_asks(book.as_str(), libraries),
    }
}

/// The rule of this name, or the playbook in the file of this name is asked for.
fn rule_or_book<'w>(name: &'w str) -> Request<'w>
    ensures { request_by result ≡ rule_or_book name.entry.now (rule_in name.entry.now) }
{
    match rule_in(name) {
        Some(rule) => Request::Explain(rule),
        None => explain_books_asks(name, &[]),
    }
}
