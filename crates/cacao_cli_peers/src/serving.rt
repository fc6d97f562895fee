// The command `filters`.
ghost use Rattle.std.specs.Prelude.{◌⊎◌};
ghost use Rattle.cacao_cli_ends.specs.Told.{end_of};
ghost use Rattle.cacao_cli_peers.specs.FilterServing.{Accepts, FailsToAccept, ServesSo};
ghost use Rattle.cacao_cli_peers.specs.PeerCounts.{CallsAtMost};

use crate::beneath::Beneath;
use crate::ending::{close_behind, wire_end};
use cacao_cli_ends::End;
use cacao_site::Site;
use oc2_wire::serve_agent;
use oc2_wire_link::Peers;
use oc2_wire_site::{LineRoom, WireSite};
use std::alloc::Global;

/// `filters`: says at which port it listens, accepts one link, and serves the filters to the engine at its other end.
pub fn serve<'w, S: Site, P: Peers>(alloc: Global, site: &mut S, peers: &mut P) -> End<'w>
    ensures serves { ServesSo (P.view peers.old) (P.view peers.new) (S.view site.old) (S.view site.new) (end_of result) }
    ensures calls { CallsAtMost 0 1 1 1 (P.view peers.old).calls (P.view peers.new).calls }
{
    let Ok(room) = LineRoom::new(alloc) else {
        return End::NoMemory;
    };
    let Ok(port) = peers.bind() else {
        return End::PeersFailed;
    };
    let Ok(line) = format!(in alloc; "port {port}\n") else {
        return End::NoMemory;
    };
    match site.say(line.as_bytes()) {
        Ok(()) => serve_one(alloc, room, site, peers),
        Err(_) => End::Unsaid,
    }
}

/// Accepts one link, and serves the filters over it.
fn serve_one<'w, S: Site, P: Peers>(
    alloc: Global,
    room: LineRoom,
    site: &mut S,
    peers: &mut P,
) -> End<'w>
    ensures accepts { Accepts (P.view peers.old) (P.view peers.new) (S.view site.old) (S.view site.new) (end_of result)
        ⊎ FailsToAccept (P.view peers.old) (P.view peers.new) (S.view site.old) (S.view site.new) (end_of result) }
    ensures calls { CallsAtMost 0 0 1 1 (P.view peers.old).calls (P.view peers.new).calls }
{
    let Ok(link) = peers.accept() else {
        return End::PeersFailed;
    };
    let lent = Beneath::new(&mut *site);
    let mut wire = WireSite::answering_in(alloc, room, lent, link);
    let end = match serve_agent(alloc, &mut wire) {
        Ok(_) => End::Done,
        Err(error) => wire_end(error),
    };
    // (its contract tells what each state of a link means)
    let _ = wire.state();
    let (lent, link) = wire.into_parts();
    let mut back = lent.into_site();
    let last = close_behind(peers, link, end);
    // (the site is lent up to here, so that it is known which one comes back)
    let _ = &mut back;
    last
}
