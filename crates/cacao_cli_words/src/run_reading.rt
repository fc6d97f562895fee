// What the words of `run` and `pair` ask for.
ghost use Rattle.std.specs.Prelude.{◌≡◌, ◌<◌, ◌≤◌, IfOk, IfSome, option_map, option_and_then, map, string_bytes, drop, length};
ghost use Rattle.cacao_cli_words.specs.Commands.{found_parts, maybe_text, run_request};
ghost use Rattle.cacao_cli_words.specs.Parts.{run_by};
ghost use Rattle.cacao_cli_words.specs.Requests.{most_records, run_from, run_number, run_options, run_wanted};
ghost use Rattle.cacao_cli_words.specs.Words.{read};

use crate::book_names::BookNames;
use crate::reading::{Found, read_behind};
use crate::run_words::RunWords;
use crate::words::read_from;
use base_decimals::MOST_EXACT;
use std::alloc::{AllocError, Global};

/// The most records of one session, and how many it may append where nothing is said of them.
const MOST_RECORDS: u64 = 1_000_000_000;

/// What `run` or `pair` asks for with the words behind it.
pub(crate) fn read_run<'w>(
    alloc: Global,
    words: &'w [String],
) -> Result<Option<RunWords<'w>>, AllocError>
    requires { 0 < length words.now }
    ensures { IfOk result (λ o. option_map run_request o
        ≡ option_and_then run_wanted (read run_options (drop 1 (map string_bytes words.entry.now)))) }
{
    match read_behind(alloc, &["run", "steps", "bind", "answers"], words)? {
        Some(found) => Ok(run_asked(found)),
        None => Ok(None),
    }
}

/// What these values of its options and these names ask for.
fn run_asked<'w>(found: Found<'w>) -> Option<RunWords<'w>>
    ensures { option_map run_request result ≡ run_by (found_parts found.entry) }
{
    let Found { values, names } = found;
    match values.as_slice() {
        [run, steps, bind, answers] => run_with(*run, *steps, *bind, *answers, names),
        _ => None,
    }
}

fn run_with<'w>(
    run: Option<&'w str>,
    steps: Option<&'w str>,
    bind: Option<&'w str>,
    answers: Option<&'w str>,
    names: Vec<&'w str>,
) -> Option<RunWords<'w>>
    ensures { option_map run_request result
        ≡ run_from (maybe_text run.entry) (maybe_text steps.entry) (maybe_text bind.entry) (maybe_text answers.entry)
        (map (λ name. name.now) names.entry.items) }
{
    if names.is_empty() {
        return None;
    }
    let run = read_run_number(run?)?;
    let most = most_records(steps)?;
    let books = BookNames::new(names);
    Some(RunWords {
        run,
        most,
        bind,
        answers,
        books,
    })
}

pub(crate) fn read_run_number(text: &str) -> Option<u64>
    ensures value { result ≡ run_number text.now }
    ensures low { IfSome result (λ n. 1 ≤ n) }
    ensures high { IfSome result (λ n. n ≤ 9_007_199_254_740_991) }
{
    read_from(1, MOST_EXACT, text)
}

pub(crate) fn most_records(steps: Option<&str>) -> Option<u64>
    ensures value { result ≡ most_records (maybe_text steps.entry) }
    ensures low { IfSome result (λ n. 1 ≤ n) }
{
    match steps {
        Some(text) => read_from(1, MOST_RECORDS, text),
        None => Some(MOST_RECORDS),
    }
}
