// What the words ask the program to do with a peer.
ghost use Rattle.std.specs.Prelude.{◌≡◌, IfOk, option_map, map, string_bytes};
ghost use Rattle.cacao_cli_words.specs.Commands.{peer_request_by};
ghost use Rattle.cacao_cli_words.specs.Requests.{peer_request, serve_asks};

use crate::run_reading::read_run;
use crate::run_words::RunWords;
use crate::words::read_names;
use std::alloc::{AllocError, Global};

/// What the words ask the program to do with a peer.
#[derive(Drop)]
pub enum PeerCommand<'w> {
    /// To go on with a run whose filters stand in another process.
    Pair { wanted: RunWords<'w> },
    /// To be that process.
    Filters,
}

/// What the words after the program's name ask for, if that is to be done with a peer; None where they have no such reading.
pub fn read_peer_words<'w>(
    alloc: Global,
    words: &'w [String],
) -> Result<Option<PeerCommand<'w>>, AllocError>
    ensures { IfOk result (λ o. option_map peer_request_by o ≡ peer_request (map string_bytes words.entry.now)) }
{
    let Some(first) = words.first() else {
        return Ok(None);
    };
    let first = first.as_str();
    if first == "pair" {
        return match read_run(alloc, words)? {
            Some(wanted) => Ok(Some(PeerCommand::Pair { wanted })),
            None => Ok(None),
        };
    }
    if first == "filters" {
        return match read_names(alloc, words)? {
            Some(names) => Ok(serve_asked(names.as_slice())),
            None => Ok(None),
        };
    }
    Ok(None)
}

/// What `filters` asks for with these names: none.
fn serve_asked<'w>(names: &[&'w str]) -> Option<PeerCommand<'w>>
    ensures { option_map peer_request_by result ≡ serve_asks (map (λ name. name.now) names.entry.now) }
{
    match names {
        [] => Some(PeerCommand::Filters),
        _ => None,
    }
}
