// The command `pair`.
ghost use Rattle.std.specs.Prelude.{◌≡◌, ◌≤◌, [], Some};
ghost use Rattle.cacao_cli_words.specs.Commands.{run_request};
ghost use Rattle.cacao_cli_ends.specs.Asked.{runs};
ghost use Rattle.cacao_cli_ends.specs.Files.{files_of, shelf_call};
ghost use Rattle.cacao_cli_ends.specs.Told.{end_of};
ghost use Rattle.cacao_cli_peers.specs.Pairing.{GoesAsPair, PairsSo};
ghost use Rattle.cacao_cli_peers.specs.PeerCounts.{CallsAtMost};

use crate::beneath::Beneath;
use crate::ending::{close_behind, wire_end};
use cacao_cli_ends::End;
use cacao_cli_session::close_end;
use cacao_cli_starts::{Ready, make_ready};
use cacao_cli_words::RunWords;
use cacao_site::{Shelf, Site};
use flow_core::Setup;
use flow_engine_answers::Answers;
use oc2_wire::serve_engine;
use oc2_wire_link::Peers;
use oc2_wire_site::{LineRoom, WireSite};
use std::alloc::Global;

/// `pair`: one session of a run whose filters stand in a process that is started for it, a line for each record that it appends.
pub fn pair<'w, L: Shelf, S: Site, P: Peers>(
    alloc: Global,
    wanted: &RunWords<'w>,
    shelf: &mut L,
    site: &mut S,
    peers: &mut P,
) -> End<'w>
    ensures performed { GoesAsPair (Some (runs (run_request wanted.entry.now)))
        (shelf_call (L.told shelf.old) (L.faults shelf.old) (L.faults shelf.new) (L.reads shelf.old) (L.reads shelf.new))
        (P.view peers.old) (P.view peers.new) (S.view site.old) (S.view site.new) (end_of result) }
    ensures calls { CallsAtMost 1 0 0 1 (P.view peers.old).calls (P.view peers.new).calls }
    ensures files { L.told shelf.new ≡ L.told shelf.old }
    ensures faults { L.faults shelf.old ≤ L.faults shelf.new }
    ensures untouched { files_of (Some (runs (run_request wanted.entry.now))) ≡ [] → shelf.new ≡ shelf.old }
{
    match make_ready(alloc, wanted, shelf) {
        Ok(Ready { setup, answers }) => match LineRoom::new(alloc) {
            Ok(room) => pair_up(
                alloc,
                room,
                setup,
                &answers,
                wanted.run,
                wanted.most,
                site,
                peers,
            ),
            Err(_) => End::NoMemory,
        },
        Err(end) => end,
    }
}

/// Starts a peer and holds the session over the wire to it; the end is that of what it answers, unless the peers fail.
fn pair_up<'w, S: Site, P: Peers>(
    alloc: Global,
    room: LineRoom,
    setup: Setup,
    answers: &Answers,
    run: u64,
    most: u64,
    site: &mut S,
    peers: &mut P,
) -> End<'w>
    requires { 1 ≤ most }
    ensures pairs { PairsSo setup run most answers.now (P.view peers.old) (P.view peers.new) (S.view site.old) (S.view site.new) (end_of result) }
    ensures calls { CallsAtMost 1 0 0 1 (P.view peers.old).calls (P.view peers.new).calls }
{
    let Ok(link) = peers.start() else {
        return End::PeersFailed;
    };
    let lent = Beneath::new(&mut *site);
    let mut wire = WireSite::asking_in(alloc, room, lent, link);
    let end = match serve_engine(alloc, &mut wire, setup, answers, run, most) {
        Ok(close) => close_end(close),
        Err(error) => wire_end(error),
    };
    let (lent, link) = wire.into_parts();
    let mut back = lent.into_site();
    let last = close_behind(peers, link, end);
    // (the site is lent up to here, so that it is known which one comes back)
    let _ = &mut back;
    last
}
