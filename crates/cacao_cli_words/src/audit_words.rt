// What `audit` asks for.
ghost use Rattle.std.specs.Prelude.{◌≡◌, ◌==◌, IfOk, option_and_then, option_map, map};
ghost use Rattle.std.specs.List.{list_any};
ghost use Rattle.cacao_cli_words.specs.Commands.{filter_of, request_by};
ghost use Rattle.cacao_cli_words.specs.Requests.{agent_number, are_apart, audit_asks, audits, if_apart, pairs_of};

use crate::filter_file::FilterFile;
use crate::words::{Command, read_agent};
use std::alloc::{AllocError, Global};

/// What `audit` asks for with these names: the engine's file, and the files of agents, each behind the number of its agent.
pub(crate) fn audit_asked<'w>(
    alloc: Global,
    names: &[&'w str],
) -> Result<Option<Command<'w>>, AllocError>
    ensures { IfOk result (λ o. option_map request_by o ≡ audit_asks (map (λ name. name.now) names.entry.now)) }
{
    match names {
        [engine, behind @ ..] => audit_with(alloc, engine, behind),
        [] => Ok(None),
    }
}

/// The same with this name of the engine's file, and these words behind it.
fn audit_with<'w>(
    alloc: Global,
    engine: &'w str,
    names: &[&'w str],
) -> Result<Option<Command<'w>>, AllocError>
    ensures { IfOk result (λ o. option_map request_by o
        ≡ option_map (audits engine.entry.now) (option_and_then if_apart (pairs_of agent_number (map (λ name. name.now) names.entry.now)))) }
{
    match pairs_of(alloc, names)? {
        Some(filters) => Ok(audit_of(engine, filters)),
        None => Ok(None),
    }
}

/// The audit of these files, if no agent stands twice.
fn audit_of<'w>(engine: &'w str, filters: Vec<FilterFile<'w>>) -> Option<Command<'w>>
    ensures { option_map request_by result ≡ option_map (audits engine.entry.now) (if_apart (map filter_of filters.entry.items)) }
{
    if are_apart(filters.as_slice()) {
        Some(Command::Audit { engine, filters })
    } else {
        None
    }
}

/// The numbers of agents, each with the name behind it.
fn pairs_of<'w>(alloc: Global, names: &[&'w str]) -> Result<Option<Vec<FilterFile<'w>>>, AllocError>
    ensures { IfOk result (λ o. option_map (λ filters. map filter_of filters.items) o ≡ pairs_of agent_number (map (λ name. name.now) names.entry.now)) }
{
    let mut filters = Vec::new(alloc);
    let mut rest = names;
    while let [agent, name, behind @ ..] = rest {
        let Some(agent) = read_agent(agent) else {
            return Ok(None);
        };
        filters.push(FilterFile { agent, name })?;
        rest = behind;
    }
    Ok(if rest.is_empty() { Some(filters) } else { None })
}

/// Whether no agent stands twice.
fn are_apart(filters: &[FilterFile<'_>]) -> bool
    ensures { result ≡ are_apart (map filter_of filters.entry.now) }
{
    let mut rest = filters;
    while let [first, behind @ ..] = rest {
        if has_agent(first.agent.number, behind) {
            return false;
        }
        rest = behind;
    }
    true
}

fn has_agent(number: u8, filters: &[FilterFile<'_>]) -> bool
    ensures { result ≡ list_any (λ file. file.agent.number == number) filters.entry.now }
{
    filters.iter().any(|file| file.agent.number == number)
}
