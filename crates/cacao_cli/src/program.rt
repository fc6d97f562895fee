// The program as one call.
ghost use Rattle.std.specs.Prelude.{◌≡◌, ◌≢◌, ◌≤◌, [], IfSome, IsTrue, Some, None, false, length, map, string_bytes, true};
ghost use Rattle.cacao_site.specs.Counts.{next_count};
ghost use Rattle.cacao_cli_ends.specs.Asked.{asked};
ghost use Rattle.cacao_cli_ends.specs.Ends.{no_memory};
ghost use Rattle.cacao_cli_ends.specs.Files.{files_of, shelf_call};
ghost use Rattle.cacao_cli_ends.specs.Stays.{NoFault, ReadsAtMost};
ghost use Rattle.cacao_cli_ends.specs.Told.{end_of};
ghost use Rattle.cacao_cli_status_laws.specs.Commands.{asked_by};
ghost use Rattle.cacao_cli_status_laws.specs.Ended.{Ended, Performed};
ghost use Rattle.cacao_cli_words.specs.Commands.{fleet_request_by, peer_request_by};
ghost use Rattle.cacao_cli_words.specs.Requests.{fleet_request, peer_request};
ghost use Rattle.cacao_site.specs.Counts.{Rose};
ghost use Rattle.cacao_cli.specs.Calls.{call, AgreesAtEachBeat, HoldsOnReturn, InOneProcess, StatusesTell};
ghost use Rattle.cacao_cli.specs.FleetUsage.{UsesFewAsFleet};
ghost use Rattle.cacao_cli.specs.WithFleets.{AgreesForEach, EndedFleet, EndsWithFleet, FindsNoDamage, IsFleetStatus, KeepsRuns};
ghost use Rattle.cacao_cli_fleets.specs.RackTold.{TellsFleetRack, TellsOfRack};
ghost use Rattle.cacao_cli.specs.WithPeers.{CallsPeersFew, EndsWithPeer, IfAlone, IfPeerless, IsPeerStatus, LeavesLinkBeneath, PerformsWithPeer, TellsPeerFaults, UsesFewWithPeer, files_for, files_named, files_without};

use crate::rehearse::rehearse;
use crate::run::run;
use cacao_cli_ends::{End, finish};
use cacao_cli_fleets::{
    complete_laws, finish_fleet, fleet, fleet_causes_law, fleet_costs_law, fleet_undamaged_law,
};
use cacao_cli_looks::{audit, canon, check, decide, say_rules, say_shadows, show};
use cacao_cli_peers::{pair, serve};
use cacao_cli_words::{
    Command, FleetWords, PeerCommand, read_fleet_words, read_peer_words, read_words,
};
use cacao_site::{Rack, Shelf, Site};
use flow_fleet_laws::{events_law, lines_law, shrinking_law};
use oc2_wire_link::Peers;
use std::alloc::Global;

/// Does what a command asks, all but the last line.
#[tactic(auto, using(crate::proofs::LookLemmas::looked_performed))]
fn carry_out<'w, L: Shelf, S: Site>(
    alloc: Global,
    command: &Command<'w>,
    shelf: &mut L,
    site: &mut S,
) -> End<'w>
    ensures performed { Performed (asked_by command.entry.now)
        (shelf_call (L.told shelf.old) (L.faults shelf.old) (L.faults shelf.new) (L.reads shelf.old) (L.reads shelf.new))
        (S.view site.old) (S.view site.new) (end_of result) }
    ensures files { L.told shelf.new ≡ L.told shelf.old }
    ensures faults { L.faults shelf.old ≤ L.faults shelf.new }
    ensures untouched { files_of (asked_by command.entry.now) ≡ [] → shelf.new ≡ shelf.old }
{
    match command {
        Command::Canon { book } => canon(alloc, book, shelf, site),
        Command::Check { books } => check(alloc, books.as_slice(), shelf, site),
        Command::Run { wanted } => run(alloc, wanted, shelf, site),
        Command::Show => show(alloc, site),
        Command::Rules { agent } => say_rules(alloc, *agent, site),
        Command::Decide { agent, packets } => decide(alloc, *agent, packets, shelf, site),
        Command::Rehearse { positions } => rehearse(alloc, *positions, site),
        Command::Shadow { agent } => say_shadows(alloc, *agent, site),
        Command::Audit { engine, filters } => {
            audit(alloc, engine, filters.as_slice(), shelf, site)
        }
    }
}

/// Does what the words ask of one process, all but the last line.
fn perform<'w, L: Shelf, S: Site>(
    alloc: Global,
    words: &'w [String],
    shelf: &mut L,
    site: &mut S,
) -> End<'w>
    ensures performed { Performed (asked (map string_bytes words.entry.now))
        (shelf_call (L.told shelf.old) (L.faults shelf.old) (L.faults shelf.new) (L.reads shelf.old) (L.reads shelf.new))
        (S.view site.old) (S.view site.new) (end_of result) }
    ensures files { L.told shelf.new ≡ L.told shelf.old }
    ensures faults { L.faults shelf.old ≤ L.faults shelf.new }
    ensures untouched { files_of (asked (map string_bytes words.entry.now)) ≡ [] → shelf.new ≡ shelf.old }
{
    match read_words(alloc, words) {
        Ok(Some(command)) => carry_out(alloc, &command, shelf, site),
        Ok(None) => End::NotUnderstood,
        Err(_) => End::NoMemory,
    }
}

/// Does what a command asks that works with a peer, all but the last line.
fn perform_with<'w, L: Shelf, S: Site, P: Peers>(
    alloc: Global,
    command: &PeerCommand<'w>,
    shelf: &mut L,
    site: &mut S,
    peers: &mut P,
) -> End<'w>
    ensures calls { CallsPeersFew (Some (peer_request_by command.entry.now)) (P.view peers.old).calls (P.view peers.new).calls }
    ensures performed { PerformsWithPeer (Some (peer_request_by command.entry.now))
        (shelf_call (L.told shelf.old) (L.faults shelf.old) (L.faults shelf.new) (L.reads shelf.old) (L.reads shelf.new))
        (P.view peers.old) (P.view peers.new) (S.view site.old) (S.view site.new) (end_of result) }
    ensures files { L.told shelf.new ≡ L.told shelf.old }
    ensures faults { L.faults shelf.old ≤ L.faults shelf.new }
    ensures untouched { files_for (Some (peer_request_by command.entry.now)) None ≡ [] → shelf.new ≡ shelf.old }
{
    match command {
        PeerCommand::Pair { wanted } => pair(alloc, wanted, shelf, site, peers),
        PeerCommand::Filters => serve(alloc, site, peers),
    }
}

/// Does what the words ask, all but the last line, unless memory was wanted for them before.
fn perform_any<'w, L: Shelf, S: Site, P: Peers>(
    alloc: Global,
    words: &'w [String],
    short: bool,
    shelf: &mut L,
    site: &mut S,
    peers: &mut P,
) -> End<'w>
    ensures alone { IfPeerless (map string_bytes words.entry.now) (Performed (asked (map string_bytes words.entry.now))
        (shelf_call (L.told shelf.old) (L.faults shelf.old) (L.faults shelf.new) (L.reads shelf.old) (L.reads shelf.new))
        (S.view site.old) (S.view site.new) (end_of result)) }
    ensures with_peer { PerformsWithPeer (peer_request (map string_bytes words.entry.now))
        (shelf_call (L.told shelf.old) (L.faults shelf.old) (L.faults shelf.new) (L.reads shelf.old) (L.reads shelf.new))
        (P.view peers.old) (P.view peers.new) (S.view site.old) (S.view site.new) (end_of result) }
    ensures apart { IfPeerless (map string_bytes words.entry.now) (peers.new ≡ peers.old) }
    ensures short { short ≡ true → (end_of result ≡ no_memory) × (shelf.new ≡ shelf.old) × (peers.new ≡ peers.old) × (site.new ≡ site.old) }
    ensures calls { CallsPeersFew (peer_request (map string_bytes words.entry.now)) (P.view peers.old).calls (P.view peers.new).calls }
    ensures files { L.told shelf.new ≡ L.told shelf.old }
    ensures faults { L.faults shelf.old ≤ L.faults shelf.new }
    ensures untouched { files_without (map string_bytes words.entry.now) ≡ [] → shelf.new ≡ shelf.old }
{
    if short {
        return End::NoMemory;
    }
    match read_peer_words(alloc, words) {
        Ok(Some(command)) => perform_with(alloc, &command, shelf, site, peers),
        Ok(None) => perform(alloc, words, shelf, site),
        Err(_) => End::NoMemory,
    }
}

/// What the words ask of a fleet, if they do, and whether memory was wanted for them.
fn read_fleet<'w>(alloc: Global, words: &'w [String]) -> (Option<FleetWords<'w>>, bool)
    ensures some { IfSome result.0 (λ wanted. fleet_request (map string_bytes words.entry.now) ≡ Some (fleet_request_by wanted)) }
    ensures none { result.0 ≡ None → result.1 ≡ false → fleet_request (map string_bytes words.entry.now) ≡ None }
{
    match read_fleet_words(alloc, words) {
        Ok(wanted) => (wanted, false),
        Err(_) => (None, true),
    }
}

/// One call of `fleet`.
fn call_fleet<L: Shelf, R: Rack>(
    alloc: Global,
    wanted: &FleetWords<'_>,
    shelf: &mut L,
    rack: &mut R,
) -> u8
    ensures agreement { KeepsRuns (Some (fleet_request_by wanted.entry.now)) (R.view rack.old) (R.view rack.new) }
    ensures ended { EndedFleet (fleet_request_by wanted.entry.now)
        (shelf_call (L.told shelf.old) (L.faults shelf.old) (L.faults shelf.new) (L.reads shelf.old) (L.reads shelf.new))
        (R.view rack.old) (R.view rack.new) result }
    ensures tells { TellsOfRack (R.view rack.old) (R.view rack.new) result }
    ensures uses_few { UsesFewAsFleet (Some (fleet_request_by wanted.entry.now)) (R.view rack.old) (R.view rack.new) }
    ensures undamaged { IsTrue (R.view rack.old).disk.told → AgreesForEach (fleet_request_by wanted.entry.now) (R.view rack.old) → result ≢ 13 }
    ensures files { L.told shelf.new ≡ L.told shelf.old }
    ensures faults { L.faults shelf.old ≤ L.faults shelf.new }
{
    events_law();
    lines_law();
    shrinking_law();
    fleet_causes_law();
    fleet_costs_law();
    fleet_undamaged_law();
    let end = fleet(alloc, wanted, shelf, rack);
    finish_fleet(alloc, &end, rack)
}

/// Does what the words after the program's name ask, says its lines, and answers the exit status.
///
/// Each status but 0 says why: 1 a rule is broken, 2 the words have no reading, 3 the shelf failed, 4 there is no such file, 5 a
/// file has no reading, 6 the run has ended and failed, 7 it is paused, 8 the disk failed, 9 a line could not be said, 10 memory was
/// wanted, 11 a limit was passed, 12 the engine's file is another run's or the number is used, 13 a file of the disk is damaged, 14
/// the run waits for a moment, 15 too many parcels changed nothing, 16 the run waits for an operator, 17 the peers failed, 18 the
/// files of a run do not agree. Where several causes hold, 2 comes before 11 for too many playbooks, then 3, 4 and 11 of one file
/// before those of the next, all of them before 5, 5 before 1, and 1 before those of a session, which come in its order; 17 comes
/// behind 11, 12 and 13 of what a session or service came to, and before them where none began.
pub fn top<L: Shelf, S: Rack, P: Peers>(
    alloc: Global,
    words: &[String],
    shelf: &mut L,
    site: &mut S,
    peers: &mut P,
) -> u8
    // The headline.
    ensures agreement { InOneProcess AgreesAtEachBeat (call (map string_bytes words.now) (L.told shelf.old) (S.view site.old) (S.view site.new) result) }

    // Each status with its cause, and what holds on return.
    ensures statuses { InOneProcess StatusesTell (call (map string_bytes words.now) (L.told shelf.old) (S.view site.old) (S.view site.new) result) }
    ensures returned { InOneProcess HoldsOnReturn (call (map string_bytes words.now) (L.told shelf.old) (S.view site.old) (S.view site.new) result) }

    // All that the call does: what it reads, the work, the lines and the status.
    ensures ended { IfAlone (map string_bytes words.now) (Ended (asked (map string_bytes words.now))
        (shelf_call (L.told shelf.old) (L.faults shelf.old) (L.faults shelf.new) (L.reads shelf.old) (L.reads shelf.new))
        (S.view site.old) (S.view site.new) result) }

    // The same of words that ask for a peer.
    ensures with_peer { EndsWithPeer (peer_request (map string_bytes words.now))
        (shelf_call (L.told shelf.old) (L.faults shelf.old) (L.faults shelf.new) (L.reads shelf.old) (L.reads shelf.new))
        (P.view peers.old) (P.view peers.new) (S.view site.old) (S.view site.new) result }
    ensures peer_faults { TellsPeerFaults (peer_request (map string_bytes words.now)) (S.view site.old) (S.view site.new) result }
    ensures own { IsPeerStatus (peer_request (map string_bytes words.now)) result }
    ensures peer_uses_few { UsesFewWithPeer (peer_request (map string_bytes words.now)) (L.told shelf.old)
        (P.view peers.old) (P.view peers.new) (S.view site.old) (S.view site.new) }
    ensures peer_link { LeavesLinkBeneath (peer_request (map string_bytes words.now)) (S.view site.old) (S.view site.new) }

    // The same of words that ask for a fleet, and the headline for each of its runs.
    ensures with_fleet { EndsWithFleet (fleet_request (map string_bytes words.now))
        (shelf_call (L.told shelf.old) (L.faults shelf.old) (L.faults shelf.new) (L.reads shelf.old) (L.reads shelf.new))
        (S.view site.old) (S.view site.new) result }
    ensures each_run { KeepsRuns (fleet_request (map string_bytes words.now)) (S.view site.old) (S.view site.new) }
    ensures fleet_own { IsFleetStatus (fleet_request (map string_bytes words.now)) result }
    ensures fleet_tells { TellsFleetRack (fleet_request (map string_bytes words.now)) (S.view site.old) (S.view site.new) result }
    ensures fleet_uses_few { UsesFewAsFleet (fleet_request (map string_bytes words.now)) (S.view site.old) (S.view site.new) }
    ensures fleet_undamaged { FindsNoDamage (fleet_request (map string_bytes words.now)) (S.view site.old) result }

    // The peers.
    ensures peers_failed { result ≡ 17 → Rose (P.view peers.old).faults (P.view peers.new).faults }
    ensures peer_calls { CallsPeersFew (peer_request (map string_bytes words.now)) (P.view peers.old).calls (P.view peers.new).calls }
    ensures apart { IfPeerless (map string_bytes words.now) (peers.new ≡ peers.old) }

    // The shelf, and want of memory.
    ensures shelf_failed { result ≡ 3 → L.faults shelf.new ≡ next_count (L.faults shelf.old) }
    ensures shelf_steady { result ≢ 3 → result ≢ 9 → L.faults shelf.new ≡ L.faults shelf.old }
    ensures no_memory { result ≡ 10
        → NoFault (L.faults shelf.old) (L.faults shelf.new) (S.view site.old) (S.view site.new) }
    ensures files { L.told shelf.new ≡ L.told shelf.old }
    ensures faults { L.faults shelf.old ≤ L.faults shelf.new }
    ensures reads { ReadsAtMost (length (files_named (map string_bytes words.now))) (L.reads shelf.old) (L.reads shelf.new) }
    ensures untouched { files_named (map string_bytes words.now) ≡ [] → shelf.new ≡ shelf.old }
{
    complete_laws();
    let (fleet, short) = read_fleet(alloc, words);
    match fleet {
        Some(wanted) => call_fleet(alloc, &wanted, shelf, site),
        None => {
            let end = perform_any(alloc, words, short, shelf, site, peers);
            finish(alloc, &end, site)
        }
    }
}
