// What the words of `fleet` ask for.
ghost use Rattle.std.specs.Prelude.{◌≡◌, ◌≤◌, ◌==◌, IfOk, map, option_and_then, option_map, string_bytes};
ghost use Rattle.std.specs.List.{list_any};
ghost use Rattle.cacao_cli_words.specs.Commands.{fleet_request_by, found_parts, maybe_text};
ghost use Rattle.cacao_cli_words.specs.Parts.{fleet_by};
ghost use Rattle.cacao_cli_words.specs.RunBooks.{run_of};
ghost use Rattle.cacao_cli_words.specs.Requests.{are_apart, fleet_from, fleet_of, fleet_request, if_apart, if_fleet, pairs_of, run_number};

use crate::fleet_words::FleetWords;
use crate::reading::{Found, read_behind};
use crate::run_book::RunBook;
use crate::run_reading::{most_records, read_run_number};
use std::alloc::{AllocError, Global};

/// The most runs of a fleet.
const MOST_RUNS: usize = 16;

/// What the words after the program's name ask of a fleet; None where they have no such reading.
pub fn read_fleet_words<'w>(
    alloc: Global,
    words: &'w [String],
) -> Result<Option<FleetWords<'w>>, AllocError>
    ensures { IfOk result (λ o. option_map fleet_request_by o ≡ fleet_request (map string_bytes words.entry.now)) }
{
    let Some(first) = words.first() else {
        return Ok(None);
    };
    if first.as_str() != "fleet" {
        return Ok(None);
    }
    match read_behind(alloc, &["steps"], words)? {
        Some(found) => fleet_asked(alloc, found),
        None => Ok(None),
    }
}

/// What these values of its options and these names ask for.
fn fleet_asked<'w>(alloc: Global, found: Found<'w>) -> Result<Option<FleetWords<'w>>, AllocError>
    ensures { IfOk result (λ o. option_map fleet_request_by o ≡ fleet_by (found_parts found.entry)) }
{
    let Found { values, names } = found;
    match values.as_slice() {
        [steps] => fleet_with(alloc, *steps, names.as_slice()),
        _ => Ok(None),
    }
}

fn fleet_with<'w>(
    alloc: Global,
    steps: Option<&'w str>,
    names: &[&'w str],
) -> Result<Option<FleetWords<'w>>, AllocError>
    ensures { IfOk result (λ o. option_map fleet_request_by o
        ≡ fleet_from (maybe_text steps.entry) (map (λ name. name.now) names.entry.now)) }
{
    let Some(most) = most_records(steps) else {
        return Ok(None);
    };
    match runs_of(alloc, names)? {
        Some(runs) => Ok(fleet_of(runs, most)),
        None => Ok(None),
    }
}

/// A fleet of these runs, if they are 1 to 16 and no number stands twice.
fn fleet_of<'w>(runs: Vec<RunBook<'w>>, most: u64) -> Option<FleetWords<'w>>
    requires { 1 ≤ most }
    ensures { option_map fleet_request_by result
        ≡ option_map (fleet_of most) (option_and_then if_apart (if_fleet (map run_of runs.entry.items))) }
{
    if runs.is_empty() || runs.len() > MOST_RUNS || !are_apart(runs.as_slice()) {
        return None;
    }
    Some(FleetWords { runs, most })
}

/// The numbers of runs, each with the name behind it.
fn runs_of<'w>(alloc: Global, names: &[&'w str]) -> Result<Option<Vec<RunBook<'w>>>, AllocError>
    ensures { IfOk result (λ o. option_map (λ runs. map run_of runs.items) o ≡ pairs_of run_number (map (λ name. name.now) names.entry.now)) }
{
    let mut runs = Vec::new(alloc);
    let mut rest = names;
    while let [run, book, behind @ ..] = rest {
        let Some(run) = read_run_number(run) else {
            return Ok(None);
        };
        runs.push(RunBook { run, book })?;
        rest = behind;
    }
    Ok(if rest.is_empty() { Some(runs) } else { None })
}

/// Whether no number stands twice.
fn are_apart(runs: &[RunBook<'_>]) -> bool
    ensures { result ≡ are_apart (map run_of runs.entry.now) }
{
    let mut rest = runs;
    while let [first, behind @ ..] = rest {
        if has_run(first.run, behind) {
            return false;
        }
        rest = behind;
    }
    true
}

fn has_run(number: u64, runs: &[RunBook<'_>]) -> bool
    ensures { result ≡ list_any (λ one. one.run == number) runs.entry.now }
{
    runs.iter().any(|one| one.run == number)
}
