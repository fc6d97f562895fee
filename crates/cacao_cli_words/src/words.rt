// What the words ask for.
ghost use Rattle.std.specs.Prelude.{◌≡◌, ◌<◌, ◌≤◌, [], IfOk, IfSome, option_map, map, string_bytes, drop, length};
ghost use Rattle.base_decimals.specs.Numbers.{number};
ghost use Rattle.cacao_cli_words.specs.Commands.{request_by};
ghost use Rattle.cacao_cli_words.specs.Requests.{agent_number, canon_asks, check_asks, decide_asks, number_from, positions_number, request, lists_rules, number_asks, rehearses, shadows, show_asks};
ghost use Rattle.cacao_cli_words.specs.Parts.{names_asks, other_asks, plain_asks};
ghost use Rattle.cacao_cli_words.specs.Words.{read};

use crate::audit_words::audit_asked;
use crate::book_names::BookNames;
use crate::filter_file::FilterFile;
use crate::numbers::{Agent, Positions};
use crate::reading::{Found, read_behind};
use crate::run_reading::read_run;
use crate::run_words::RunWords;
use base_decimals::read_number;
use std::alloc::{AllocError, Global};

/// The most positions of a rehearsal.
const MOST_POSITIONS: u64 = 1_000;

/// What the words ask the program to do.
#[derive(Drop)]
pub enum Command<'w> {
    /// To say the canonical text of the playbook in the file of this name.
    Canon {
        book: &'w str,
    },
    /// To say whether the playbooks in the files of these names are accepted together.
    Check {
        books: BookNames<'w>,
    },
    /// To go on with a run.
    Run {
        wanted: RunWords<'w>,
    },
    /// To say the state of the run.
    Show,
    /// To say the rule table of this agent.
    Rules {
        agent: Agent,
    },
    /// To say what this agent decides for each packet in the file of this name.
    Decide {
        agent: Agent,
        packets: &'w str,
    },
    /// To run a playbook of so many positions that is made for it.
    Rehearse {
        positions: Positions,
    },
    /// To say which rules of this agent never decide.
    Shadow {
        agent: Agent,
    },
    /// To say whether the engine's file of this name and those of the agents agree. An agent stands at most once.
    Audit {
        engine: &'w str,
        filters: Vec<FilterFile<'w>>,
    },
}

/// What the words after the program's name ask for; None where they have no reading.
pub fn read_words<'w>(alloc: Global, words: &'w [String]) -> Result<Option<Command<'w>>, AllocError>
    ensures { IfOk result (λ o. option_map request_by o ≡ request (map string_bytes words.entry.now)) }
{
    let Some(first) = words.first() else {
        return Ok(None);
    };
    let first = first.as_str();
    if first == "run" {
        return match read_run(alloc, words)? {
            Some(wanted) => Ok(Some(Command::Run { wanted })),
            None => Ok(None),
        };
    }
    match read_names(alloc, words)? {
        Some(names) => names_asked(alloc, first, names),
        None => Ok(None),
    }
}

/// What a command without options asks for with these names.
fn names_asked<'w>(
    alloc: Global,
    first: &str,
    names: Vec<&'w str>,
) -> Result<Option<Command<'w>>, AllocError>
    ensures { IfOk result (λ o. option_map request_by o ≡ names_asks first.entry.now (map (λ name. name.now) names.entry.items)) }
{
    if first == "audit" {
        return audit_asked(alloc, names.as_slice());
    }
    Ok(plain_asked(first, names))
}

/// The names behind the first word, for a command without options; None where the words have no reading.
pub(crate) fn read_names<'w>(
    alloc: Global,
    words: &'w [String],
) -> Result<Option<Vec<&'w str>>, AllocError>
    requires { 0 < length words.now }
    ensures { IfOk result (λ o. option_map (λ names. map (λ name. name.now) names.items) o
        ≡ option_map (λ r. r.names) (read [] (drop 1 (map string_bytes words.entry.now)))) }
{
    match read_behind(alloc, &[], words)? {
        Some(Found { values: _, names }) => Ok(Some(names)),
        None => Ok(None),
    }
}

/// The same of the commands other than `audit`.
fn plain_asked<'w>(first: &str, names: Vec<&'w str>) -> Option<Command<'w>>
    ensures { option_map request_by result ≡ plain_asks first.entry.now (map (λ name. name.now) names.entry.items) }
{
    if first == "canon" {
        return canon_asked(names.as_slice());
    }
    if first == "check" {
        return check_asked(names);
    }
    other_asked(first, names.as_slice())
}

/// The same of the commands other than `audit`, `canon` and `check`.
fn other_asked<'w>(first: &str, names: &[&'w str]) -> Option<Command<'w>>
    ensures { option_map request_by result ≡ other_asks first.entry.now (map (λ name. name.now) names.entry.now) }
{
    if first == "show" {
        return show_asked(names);
    }
    if first == "rules" {
        return rules_asked(names);
    }
    if first == "decide" {
        return decide_asked(names);
    }
    if first == "rehearse" {
        return rehearse_asked(names);
    }
    if first == "shadow" {
        return shadow_asked(names);
    }
    None
}

/// What `canon` asks for with these names: one.
fn canon_asked<'w>(names: &[&'w str]) -> Option<Command<'w>>
    ensures { option_map request_by result ≡ canon_asks (map (λ name. name.now) names.entry.now) }
{
    match names {
        [book] => Some(Command::Canon { book }),
        _ => None,
    }
}

/// What `check` asks for with these names: one or more.
fn check_asked<'w>(names: Vec<&'w str>) -> Option<Command<'w>>
    ensures { option_map request_by result ≡ check_asks (map (λ name. name.now) names.entry.items) }
{
    if names.is_empty() {
        return None;
    }
    let books = BookNames::new(names);
    Some(Command::Check { books })
}

/// What `show` asks for with these names: none.
fn show_asked<'w>(names: &[&'w str]) -> Option<Command<'w>>
    ensures { option_map request_by result ≡ show_asks (map (λ name. name.now) names.entry.now) }
{
    match names {
        [] => Some(Command::Show),
        _ => None,
    }
}

/// What `decide` asks for with these names: an agent and a file.
fn decide_asked<'w>(names: &[&'w str]) -> Option<Command<'w>>
    ensures { option_map request_by result ≡ decide_asks (map (λ name. name.now) names.entry.now) }
{
    match names {
        [agent, packets] => {
            let agent = read_agent(agent)?;
            Some(Command::Decide { agent, packets })
        }
        _ => None,
    }
}

/// What `rules` asks for with these names: an agent.
fn rules_asked<'w>(names: &[&'w str]) -> Option<Command<'w>>
    ensures { option_map request_by result ≡ number_asks agent_number lists_rules (map (λ name. name.now) names.entry.now) }
{
    match names {
        [agent] => {
            let agent = read_agent(agent)?;
            Some(Command::Rules { agent })
        }
        _ => None,
    }
}

/// What `rehearse` asks for with these names: a number of positions.
fn rehearse_asked<'w>(names: &[&'w str]) -> Option<Command<'w>>
    ensures { option_map request_by result ≡ number_asks positions_number rehearses (map (λ name. name.now) names.entry.now) }
{
    match names {
        [positions] => {
            let positions = read_positions(positions)?;
            Some(Command::Rehearse { positions })
        }
        _ => None,
    }
}

/// What `shadow` asks for with these names: an agent.
fn shadow_asked<'w>(names: &[&'w str]) -> Option<Command<'w>>
    ensures { option_map request_by result ≡ number_asks agent_number shadows (map (λ name. name.now) names.entry.now) }
{
    match names {
        [agent] => {
            let agent = read_agent(agent)?;
            Some(Command::Shadow { agent })
        }
        _ => None,
    }
}

/// The number of these bounds that a text is.
pub(crate) fn read_from(low: u64, most: u64, text: &str) -> Option<u64>
    ensures value { result ≡ number_from low most text.now }
    ensures low { IfSome result (λ n. low ≤ n) }
    ensures high { IfSome result (λ n. n ≤ most) }
{
    let n = read_number(text.as_bytes(), most)?;
    if n >= low { Some(n) } else { None }
}

pub(crate) fn read_agent(text: &str) -> Option<Agent>
    ensures { option_map (λ agent. agent.number) result ≡ agent_number text.now }
{
    let n = read_from(1, 16, text)?;
    Some(Agent::new(n as u8))
}

fn read_positions(text: &str) -> Option<Positions>
    ensures { option_map (λ positions. positions.count) result ≡ positions_number text.now }
{
    let n = read_from(1, MOST_POSITIONS, text)?;
    Some(Positions::new(n as u32))
}
