// The words behind `preflight`: an option with its value, and names, in the reading of `cacao run`.
ghost use Rattle.std.specs.Prelude.{◌≡◌, ◌≤◌, ◌<◌, ◌+◌, ◌∷◌, ◌++◌, [], IfSome, drop, length, take, Some, None, ◌==◌, codes, map, option_map, string_bytes, true, ◌&&◌, if◌then◌else◌};
ghost use Rattle.std.specs.List.{after_first, before_first, list_all, position, position_or_len};
ghost use Rattle.cacao_cli_words.specs.Words.{before_dashes, begins_hyphen, behind_dashes, behind_option, fits, has_equals, if_fits, option_in};
ghost use Rattle.cacao_view_words.specs.Asked.{maybe_text, request_by};
ghost use Rattle.cacao_view_words.specs.Options.{asks_from, option_asks, option_of, reading};
ghost use Rattle.cacao_view_words.specs.Requests.{preflight_asks, preflight_of};

use crate::book_words::BookWords;
use crate::wanted::Wanted;
use crate::words::Request;
use cacao_cli_words::NAME_LIMIT;

// ---- one word

fn begins_hyphen(word: &[u8]) -> bool
    ensures { result ≡ begins_hyphen word.now }
{
    match word {
        [first, ..] => *first == b'-',
        [] => false,
    }
}

/// Whether a name or a value has 1 to 1,024 bytes.
fn fits(word: &str) -> bool
    ensures { result ≡ fits word.now }
{
    !word.is_empty() && word.len() <= NAME_LIMIT
}

fn each_fits(words: &[String]) -> bool
    ensures { result ≡ list_all (λ word. fits (string_bytes word)) words.now }
{
    words.iter().all(|word| fits(word.as_str()))
}

fn all_fit(words: &[String]) -> bool
    ensures { result ≡ list_all fits (map string_bytes words.now) }
{
    each_fits(words)
}

/// The name of an option, and the value behind its first `=`.
fn name_and_value(text: &str) -> (&str, Option<&str>)
    ensures { option_of result ≡ (before_first (λ c. c == 61) text.now, if has_equals text.now then Some (after_first (λ c. c == 61) text.now) else None) }
{
    match text.split_once('=') {
        Some((name, value)) => (name, Some(value)),
        None => (text, None),
    }
}

/// The option that a word is: its name, and its value, if that stands in the word.
fn option_in<'w>(word: &'w str) -> Option<(&'w str, Option<&'w str>)>
    ensures { option_map option_of result ≡ option_in word.now }
{
    let Some(text) = word.strip_prefix("--") else {
        return None;
    };
    if text.is_empty() {
        return None;
    }
    Some(name_and_value(text))
}

// ---- words that are left

/// The place of the first word that begins with a hyphen.
fn first_option(words: &[String]) -> Option<usize>
    ensures value { result ≡ position (λ word. begins_hyphen (string_bytes word)) words.now }
    ensures within { IfSome result (λ place. place < length words.now) }
{
    words.iter().position(|word| begins_hyphen(word.as_bytes()))
}

/// How many words stand before it.
fn count_names(words: &[String]) -> usize
    ensures value { result ≡ position_or_len (λ word. begins_hyphen (string_bytes word)) words.now }
    ensures within { result ≤ length words.now }
{
    match first_option(words) {
        Some(place) => place,
        None => words.len(),
    }
}

fn words_before<'w>(words: &'w [String], place: usize) -> &'w [String]
    requires { place < length words.now }
    ensures { result.now ≡ take place words.entry.now }
{
    &words[..place]
}

fn words_behind<'w>(words: &'w [String], place: usize) -> &'w [String]
    requires { place < length words.now }
    ensures { result.now ≡ drop (place + 1) words.entry.now }
{
    &words[place + 1..]
}

/// Whether a value, if it is given, has 1 to 1,024 bytes.
fn value_fits(bind: Option<&str>) -> bool
    ensures { result ≡ list_all (λ p. fits p.1) (reading (maybe_text bind.entry) []).options }
{
    match bind {
        Some(value) => fits(value),
        None => true,
    }
}

fn each_list_fits(before: &[String], between: &[String], behind: &[String]) -> bool
    ensures { result ≡ (list_all fits (map string_bytes before.now) && (list_all fits (map string_bytes between.now) && list_all fits (map string_bytes behind.now))) }
{
    all_fit(before) && (all_fit(between) && all_fit(behind))
}

/// Whether each of these names has 1 to 1,024 bytes.
fn names_fit(before: &[String], between: &[String], behind: &[String]) -> bool
    ensures { result ≡ list_all fits (map string_bytes before.now ++ (map string_bytes between.now ++ map string_bytes behind.now)) }
{
    each_list_fits(before, between, behind)
}

/// Whether each of these names and these bindings does.
fn fit_whole(bind: Option<&str>, before: &[String], between: &[String], behind: &[String]) -> bool
    ensures { result ≡ (list_all fits (map string_bytes before.now ++ (map string_bytes between.now ++ map string_bytes behind.now)) && list_all (λ p. fits p.1) (reading (maybe_text bind.entry) []).options) }
{
    names_fit(before, between, behind) && value_fits(bind)
}

/// What is asked for where these names and these bindings are all that was read.
fn read_whole<'w>(
    bind: Option<&'w str>,
    before: &'w [String],
    between: &'w [String],
    behind: &'w [String],
) -> Request<'w>
    ensures { request_by result ≡ preflight_of (if_fits (reading (maybe_text bind.entry) (map string_bytes before.entry.now ++ (map string_bytes between.entry.now ++ map string_bytes behind.entry.now)))) }
{
    if !fit_whole(bind, before, between, behind) {
        return Request::Lacks(Wanted::Playbook);
    }
    let count = before.len() + (between.len() + behind.len());
    if count == 0 {
        return Request::Lacks(Wanted::Playbook);
    }
    let books = BookWords::new(before, between, behind);
    Request::Preflight { bind, books }
}

/// What the words behind `--` ask for.
fn read_names<'w>(
    bind: Option<&'w str>,
    before: &'w [String],
    between: &'w [String],
    words: &'w [String],
) -> Request<'w>
    ensures { request_by result ≡ asks_from (reading (maybe_text bind.entry) (map string_bytes before.entry.now ++ map string_bytes between.entry.now)) behind_dashes (map string_bytes words.entry.now) }
{
    if count_names(words) < words.len() {
        return Request::Lacks(Wanted::Playbook);
    }
    read_whole(bind, before, between, words)
}

/// What words ask for that begin with one of options, where bindings are given.
fn read_dashes<'w>(
    bind: &'w str,
    before: &'w [String],
    between: &'w [String],
    word: &'w str,
    words: &'w [String],
) -> Request<'w>
    requires { begins_hyphen word.now ≡ true }
    ensures { request_by result ≡ asks_from (reading (Some bind.entry.now) (map string_bytes before.entry.now ++ map string_bytes between.entry.now)) before_dashes (word.entry.now ∷ map string_bytes words.entry.now) }
{
    if word == "--" {
        return read_names(Some(bind), before, between, words);
    }
    Request::Lacks(Wanted::Playbook)
}

/// What the words behind the bindings ask for.
fn read_bound<'w>(bind: &'w str, before: &'w [String], words: &'w [String]) -> Request<'w>
    ensures { request_by result ≡ asks_from (reading (Some bind.entry.now) (map string_bytes before.entry.now)) before_dashes (map string_bytes words.entry.now) }
{
    match first_option(words) {
        None => read_whole(Some(bind), before, words, &[]),
        Some(place) => {
            let between = words_before(words, place);
            let behind = words_behind(words, place);
            read_dashes(bind, before, between, words[place].as_str(), behind)
        }
    }
}

/// What the words behind `--bind` ask for.
fn read_value<'w>(before: &'w [String], words: &'w [String]) -> Request<'w>
    ensures { request_by result ≡ asks_from (reading None (map string_bytes before.entry.now)) (behind_option (codes "bind")) (map string_bytes words.entry.now) }
{
    match words {
        [] => Request::Lacks(Wanted::Playbook),
        [value, words @ ..] => value_asks(before, value.as_str(), words),
    }
}

fn value_asks<'w>(before: &'w [String], value: &'w str, words: &'w [String]) -> Request<'w>
    ensures { request_by result ≡ asks_from (reading None (map string_bytes before.entry.now)) (behind_option (codes "bind")) (value.entry.now ∷ map string_bytes words.entry.now) }
{
    if begins_hyphen(value.as_bytes()) {
        return Request::Lacks(Wanted::Playbook);
    }
    read_bound(value, before, words)
}

/// What an option with this name and this value asks for, and the words behind it.
fn option_asks<'w>(
    before: &'w [String],
    name: &'w str,
    value: Option<&'w str>,
    words: &'w [String],
) -> Request<'w>
    ensures { request_by result ≡ option_asks (map string_bytes before.entry.now) (name.entry.now, maybe_text value.entry) (map string_bytes words.entry.now) }
{
    if name != "bind" {
        return Request::Lacks(Wanted::Playbook);
    }
    match value {
        Some(value) => read_bound(value, before, words),
        None => read_value(before, words),
    }
}

/// What words ask for that begin with one of options.
fn read_option<'w>(before: &'w [String], word: &'w str, words: &'w [String]) -> Request<'w>
    requires { begins_hyphen word.now ≡ true }
    ensures { request_by result ≡ asks_from (reading None (map string_bytes before.entry.now)) before_dashes (word.entry.now ∷ map string_bytes words.entry.now) }
{
    if word == "--" {
        return read_names(None, before, &[], words);
    }
    match option_in(word) {
        Some((name, value)) => option_asks(before, name, value, words),
        None => Request::Lacks(Wanted::Playbook),
    }
}

/// What the words behind `preflight` ask for.
pub(crate) fn preflight_asks<'w>(words: &'w [String]) -> Request<'w>
    ensures { request_by result ≡ preflight_asks (map string_bytes words.entry.now) }
{
    match first_option(words) {
        None => read_whole(None, words, &[], &[]),
        Some(place) => {
            let before = words_before(words, place);
            let behind = words_behind(words, place);
            read_option(before, words[place].as_str(), behind)
        }
    }
}
