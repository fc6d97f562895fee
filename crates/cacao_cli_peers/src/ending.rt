// How a call ends that works with a peer.
ghost use Rattle.std.specs.Prelude.{◌≡◌, Bool};
ghost use Rattle.cacao_cli_ends.specs.Told.{end_of};
ghost use Rattle.cacao_cli_peers.specs.Pairing.{wire_end};
ghost use Rattle.cacao_cli_peers.specs.PeerCounts.{Closes, behind_close, comes_before_peers};

use cacao_cli_ends::{End, Limit};
use cacao_cli_session::limit_of;
use oc2_wire::WireError;
use oc2_wire_link::Peers;

/// How a call ends whose end of a wire refused.
pub fn wire_end<'w>(error: WireError) -> End<'w>
    ensures { end_of result ≡ wire_end error }
{
    match error {
        WireError::Disk => End::DiskFailed,
        WireError::Damaged { file, place } => End::Damaged { file, place },
        WireError::OtherRun { held, asked } => End::OtherRun { held, asked },
        WireError::OtherBook { index } => End::OtherBook { index },
        WireError::Limit { what } => End::Past {
            limit: limit_of(what),
        },
        WireError::Say => End::Unsaid,
        WireError::Flooded => End::Flooded,
        WireError::TooLong => End::Past {
            limit: Limit::LineBytes,
        },
        WireError::Link => End::PeersFailed,
        WireError::Memory => End::NoMemory,
    }
}

/// Whether it is told before a failure of the peers.
fn comes_before_peers(end: &End<'_>) -> bool
    ensures { result ≡ comes_before_peers (end_of end.now) }
{
    matches!(
        end,
        End::Past { .. }
            | End::OtherRun { .. }
            | End::OtherBook { .. }
            | End::RunUsed { .. }
            | End::Damaged { .. }
    )
}

/// Closes the link of a call that ends so, unless it can't be closed.
pub fn close_behind<'w, P: Peers>(peers: &mut P, link: P::Out, end: End<'w>) -> End<'w>
    ensures closes { (fails : Bool) × Closes (P.Out.view link) fails (P.view peers.old) (P.view peers.new) × (end_of result ≡ behind_close fails (end_of end.entry)) }
{
    match peers.close(link) {
        Ok(()) => end,
        Err(_) if comes_before_peers(&end) => end,
        Err(_) => End::PeersFailed,
    }
}
