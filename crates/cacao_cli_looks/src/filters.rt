// The commands that say something of a filter: `rules`, `decide` and `shadow`.
ghost use Rattle.std.specs.Prelude.{◌≡◌, ◌≤◌, Some};
ghost use Rattle.cacao_cli_ends.specs.Asked.{decides};
ghost use Rattle.cacao_cli_ends.specs.Told.{end_of};
ghost use Rattle.cacao_cli_looks.specs.Command.{open_end};
ghost use Rattle.cacao_cli_looks.specs.Looking.{Looked, Looks};
ghost use Rattle.cacao_cli_ends.specs.Files.{shelf_call};
ghost use Rattle.cacao_cli_ends.specs.Work.{at_decisions, at_rules, at_shadows, opens_filter};

use crate::file::read_file;
use crate::packets::packets_of;
use cacao_cli_ends::{End, say_all};
use cacao_cli_filters::{decision_lines, rule_lines, shadow_lines};
use cacao_cli_words::Agent;
use cacao_site::{Shelf, Site};
use oc2_nets::Packet;
use slpf_actuator::{ActError, Actuator};
use std::alloc::Global;

/// How a call ends where the file of this agent was not opened.
fn open_end<'w>(agent: u8, error: ActError) -> End<'w>
    ensures { end_of result ≡ open_end agent error }
{
    match error {
        ActError::Disk => End::DiskFailed,
        ActError::Damaged { place } => End::Damaged { file: agent, place },
        ActError::Full { .. } | ActError::Broken | ActError::Memory => End::NoMemory,
    }
}

/// `rules`: says the rule table of the agent.
pub fn say_rules<'w, S: Site>(alloc: Global, agent: Agent, site: &mut S) -> End<'w>
    ensures { Looks (opens_filter agent.number at_rules) (S.view site.old) (S.view site.new) (end_of result) }
{
    let actuator = match Actuator::open_on(alloc, site, agent.number) {
        Ok(actuator) => actuator,
        Err(error) => return open_end(agent.number, error),
    };
    match rule_lines(alloc, actuator.table()) {
        Ok(lines) => say_all(lines.as_slice(), End::Done, site),
        Err(_) => End::NoMemory,
    }
}

/// `shadow`: says which rules of the agent never decide.
pub fn say_shadows<'w, S: Site>(alloc: Global, agent: Agent, site: &mut S) -> End<'w>
    ensures { Looks (opens_filter agent.number at_shadows) (S.view site.old) (S.view site.new) (end_of result) }
{
    let actuator = match Actuator::open_on(alloc, site, agent.number) {
        Ok(actuator) => actuator,
        Err(error) => return open_end(agent.number, error),
    };
    match shadow_lines(alloc, actuator.table()) {
        Ok(lines) => say_all(lines.as_slice(), End::Done, site),
        Err(_) => End::NoMemory,
    }
}

/// The part of `decide` behind its file: says what the agent decides for these packets.
fn say_decisions<'w, S: Site>(
    alloc: Global,
    agent: Agent,
    packets: &[(u64, Packet)],
    site: &mut S,
) -> End<'w>
    ensures { Looks (opens_filter agent.number (at_decisions packets.now)) (S.view site.old) (S.view site.new) (end_of result) }
{
    let actuator = match Actuator::open_on(alloc, site, agent.number) {
        Ok(actuator) => actuator,
        Err(error) => return open_end(agent.number, error),
    };
    match decision_lines(alloc, actuator.table(), packets) {
        Ok(lines) => say_all(lines.as_slice(), End::Done, site),
        Err(_) => End::NoMemory,
    }
}

/// `decide`: says what the agent decides for each packet of the file.
pub fn decide<'w, L: Shelf, S: Site>(
    alloc: Global,
    agent: Agent,
    packets: &'w str,
    shelf: &mut L,
    site: &mut S,
) -> End<'w>
    ensures performed { Looked (Some (decides agent.number packets.entry.now))
        (shelf_call (L.told shelf.old) (L.faults shelf.old) (L.faults shelf.new) (L.reads shelf.old) (L.reads shelf.new))
        (S.view site.old) (S.view site.new) (end_of result) }
    ensures files { L.told shelf.new ≡ L.told shelf.old }
    ensures faults { L.faults shelf.old ≤ L.faults shelf.new }
{
    let text = match read_file(alloc, packets, shelf) {
        Ok(text) => text,
        Err(end) => return end,
    };
    match packets_of(alloc, &text) {
        Ok(found) => say_decisions(alloc, agent, found.as_slice(), site),
        Err(end) => end,
    }
}
