// The words behind the first, read by clap: options with their values, and names.
ghost use Rattle.std.specs.Prelude.{◌≡◌, ◌<◌, [], false, IfOk, MatchOption, option_map, map, drop, length, string_bytes, unwrap_or, Some};
ghost use Rattle.std.specs.List.{list_all};
ghost use Rattle.std.specs.Str.{bytes_eq};
ghost use Rattle.clap.specs.Words.{app_of, found_of, rows_of};
ghost use Rattle.cacao_cli_words.specs.ClapCommand.{app, names_id, options_of};
ghost use Rattle.cacao_cli_words.specs.ClapRows.{IsApart, IsReadAs, found};
ghost use Rattle.cacao_cli_words.specs.Commands.{found_parts, maybe_text};
ghost use Rattle.cacao_cli_words.specs.Found.{first_of, if_all_fit, maybe_fits, parts_of};
ghost use Rattle.cacao_cli_words.specs.Hyphens.{passes, word_passes};
ghost use Rattle.cacao_cli_words.specs.Words.{before_dashes, dashes, fits, nothing_read, read, read_from};

use clap::error::ErrorKind;
use clap::{Arg, ArgAction, ArgMatches, Command};
use std::alloc::{AllocError, Global};

/// The most bytes of a name or a value among the words.
pub const NAME_LIMIT: usize = 1024;

/// What stands behind the first word.
#[derive(Drop)]
pub(crate) struct Found<'w> {
    /// The value of each option that the command knows, in the order of these.
    pub(crate) values: Vec<Option<&'w str>>,
    /// The names, in the order of the words.
    pub(crate) names: Vec<&'w str>,
}

/// The words behind the first, for a command with these options; None where they have no reading.
pub(crate) fn read_behind<'w>(
    alloc: Global,
    options: &[&'w str],
    words: &'w [String],
) -> Result<Option<Found<'w>>, AllocError>
    requires some { 0 < length words.now }
    requires apart { IsApart (map (λ x. x.now) options.now) }
    ensures { let known = map (λ x. x.now) options.entry.now in
        IfOk result (λ o. option_map found_parts o ≡ option_map (parts_of known) (read known (drop 1 (map string_bytes words.entry.now)))) }
{
    let Some(matches) = matches_of(alloc, options, words)? else {
        return Ok(None);
    };
    let values = values_of(alloc, &matches, options)?;
    let names = names_of(alloc, &matches)?;
    Ok(found_if_fit(values, names))
}

/// These values and names, if each has 1 to 1,024 bytes.
fn found_if_fit<'w>(values: Vec<Option<&'w str>>, names: Vec<&'w str>) -> Option<Found<'w>>
    ensures { option_map found_parts result ≡ if_all_fit (map maybe_text values.entry.items) (map (λ name. name.now) names.entry.items) }
{
    if all_fit(names.as_slice()) && values_fit(values.as_slice()) {
        Some(Found { values, names })
    } else {
        None
    }
}

/// The values of these options, in order.
fn values_of<'w>(
    alloc: Global,
    matches: &ArgMatches<'w>,
    options: &[&'w str],
) -> Result<Vec<Option<&'w str>>, AllocError>
    ensures { IfOk result (λ values. map maybe_text values.items
        ≡ map (λ x. first_of (found x.now (rows_of (found_of matches.entry.now)))) options.entry.now) }
{
    let mut values = Vec::new(alloc);
    for option in options {
        values.push(value_of(matches, option))?;
    }
    Ok(values)
}

fn value_of<'w>(matches: &ArgMatches<'w>, option: &str) -> Option<&'w str>
    ensures { maybe_text result ≡ first_of (found option.entry.now (rows_of (found_of matches.entry.now))) }
{
    match matches.get_strs(option) {
        Some(values) => first_of(values),
        None => None,
    }
}

fn first_of<'w>(values: &[&'w str]) -> Option<&'w str>
    ensures { maybe_text result ≡ first_of (Some (map (λ value. value.now) values.entry.now)) }
{
    match values {
        [value, ..] => Some(value),
        [] => None,
    }
}

fn names_of<'w>(alloc: Global, matches: &ArgMatches<'w>) -> Result<Vec<&'w str>, AllocError>
    ensures { IfOk result (λ names. map (λ name. name.now) names.items
        ≡ unwrap_or (found names_id (rows_of (found_of matches.entry.now))) []) }
{
    match matches.get_strs("names") {
        Some(names) => Ok(Vec::from_slice(alloc, names)?),
        None => Ok(Vec::new(alloc)),
    }
}

/// What clap finds in the words behind the first; None where they have no reading.
fn matches_of<'w>(
    alloc: Global,
    options: &[&'w str],
    words: &'w [String],
) -> Result<Option<ArgMatches<'w>>, AllocError>
    requires some { 0 < length words.now }
    requires apart { IsApart (map (λ x. x.now) options.now) }
    ensures { let known = map (λ x. x.now) options.entry.now in
        let behind = drop 1 (map string_bytes words.entry.now) in
        IfOk result (λ r. MatchOption r (read_from known nothing_read before_dashes behind ≡ None) (λ m. IsReadAs known behind (rows_of (found_of m)))) }
{
    if !pass(&words[1..]) {
        return Ok(None);
    }
    match words_command(alloc, options)?.try_get_matches_from(words) {
        Ok(matches) => Ok(Some(matches)),
        Err(error) => match error.kind() {
            ErrorKind::OutOfMemory => Err(AllocError),
            _ => Ok(None),
        },
    }
}

/// A command that takes these options and any number of names, and says nothing of its own.
fn words_command<'w>(alloc: Global, options: &[&'w str]) -> Result<Command<'w>, AllocError>
    ensures { IfOk result (λ c. app_of c ≡ app (map (λ x. x.now) options.entry.now)) }
{
    let mut command = blank_command(alloc);
    for option in options {
        let taken = Arg::new(alloc, option).long(option).action(ArgAction::Set);
        command = command.arg(taken)?;
    }
    let names = Arg::new(alloc, "names").action(ArgAction::Append);
    command.arg(names)
}

/// A command that takes nothing yet.
fn blank_command<'w>(alloc: Global) -> Command<'w>
    ensures { app_of result ≡ options_of [] }
{
    Command::new(alloc, "words")
        .disable_help_flag(true)
        .disable_version_flag(true)
}

/// Whether no word is refused for its hyphens. clap takes a lone hyphen, and any word behind `--`.
fn pass(words: &[String]) -> bool
    ensures { result ≡ passes false (map string_bytes words.now) }
{
    let mut ended = false;
    for word in words {
        if !word_passes(ended, word.as_bytes()) {
            return false;
        }
        ended = ended || is_dashes(word.as_str());
    }
    true
}

fn word_passes(ended: bool, word: &[u8]) -> bool
    ensures { result ≡ word_passes ended word.now }
{
    if word.is_empty() || word[0] != b'-' {
        return true;
    }
    !ended && word.len() >= 2 && word[1] == b'-'
}

fn is_dashes(word: &str) -> bool
    ensures { result ≡ bytes_eq word.now dashes }
{
    word == "--"
}

/// Whether each name has 1 to 1,024 bytes.
fn all_fit(names: &[&str]) -> bool
    ensures { result ≡ list_all (λ name. fits name.now) names.now }
{
    names.iter().all(|name| fits(name))
}

/// Whether each value that is given has 1 to 1,024 bytes.
fn values_fit(values: &[Option<&str>]) -> bool
    ensures { result ≡ list_all (λ value. maybe_fits (maybe_text value)) values.now }
{
    values.iter().all(|value| value_fits(*value))
}

fn value_fits(value: Option<&str>) -> bool
    ensures { result ≡ maybe_fits (maybe_text value.entry) }
{
    match value {
        Some(value) => fits(value),
        None => true,
    }
}

fn fits(name: &str) -> bool
    ensures { result ≡ fits name.now }
{
    !name.is_empty() && name.len() <= NAME_LIMIT
}
