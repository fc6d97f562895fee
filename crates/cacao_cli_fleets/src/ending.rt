// How a call of `fleet` ends, and its last line.
ghost use Rattle.std.specs.Prelude.{◌≡◌};
ghost use Rattle.cacao_cli_ends.specs.Told.{end_of};
ghost use Rattle.cacao_cli_fleets.specs.FleetEnds.{TellsFleet, close_end, error_end, fleet_end_of, plain};
ghost use Rattle.cacao_cli_fleets.specs.MadeLines.{SaysMade};

use crate::fleet_end::FleetEnd;
use cacao_cli_ends::{End, finish};
use cacao_cli_session::limit_of;
use cacao_site::Site;
use flow_fleet_returns::{FleetClose, FleetError};
use std::alloc::{AllocError, Global};

fn plain<'w>(end: End<'w>) -> FleetEnd<'w>
    ensures { fleet_end_of result ≡ plain (end_of end.entry) }
{
    FleetEnd::Plain { end }
}

/// How a call ends whose fleet closed.
pub(crate) fn close_end<'w>(close: FleetClose) -> FleetEnd<'w>
    ensures { fleet_end_of result ≡ close_end close }
{
    match close {
        FleetClose::Ended { failed: None } => plain(End::EndedOk),
        FleetClose::Ended { failed: Some(run) } => FleetEnd::Failed { run },
        FleetClose::Paused => plain(End::Paused),
        FleetClose::Waiting { due } => plain(End::Waiting { moment: due }),
        FleetClose::Flooded => plain(End::Flooded),
        FleetClose::Asked { run, issue } => FleetEnd::Asked { run, issue },
    }
}

/// How a call ends whose fleet refused.
pub(crate) fn error_end<'w>(error: FleetError) -> FleetEnd<'w>
    ensures { fleet_end_of result ≡ error_end error }
{
    match error {
        FleetError::Disk => plain(End::DiskFailed),
        FleetError::Damaged { file, place } => plain(End::Damaged { file, place }),
        FleetError::OtherRun { held, asked } => plain(End::OtherRun { held, asked }),
        FleetError::OtherBook { run, index } => FleetEnd::OtherBook { run, index },
        FleetError::RunUsed { run, agent } => FleetEnd::RunUsed { run, agent },
        FleetError::Limit { what } => plain(End::Past {
            limit: limit_of(what),
        }),
        FleetError::Say => plain(End::Unsaid),
        FleetError::Memory => plain(End::NoMemory),
    }
}

/// Says the last line, if the end has one, and answers its status.
pub fn finish_fleet<S: Site>(alloc: Global, end: &FleetEnd<'_>, site: &mut S) -> u8
    ensures { TellsFleet (fleet_end_of end.entry.now) (S.view site.old) (S.view site.new) result }
{
    match end {
        FleetEnd::Plain { end } => finish(alloc, end, site),
        FleetEnd::Failed { run } => say_made(format!(in alloc; "ended failed {run}\n"), 6, site),
        FleetEnd::Asked { run, issue } => {
            say_made(format!(in alloc; "asked {run} {issue}\n"), 16, site)
        }
        FleetEnd::OtherBook { run, index } => {
            say_made(
                format!(in alloc; "other playbook {run} {index}\n"),
                12,
                site,
            )
        }
        FleetEnd::RunUsed { run, agent } => {
            say_made(format!(in alloc; "run used {run} {agent}\n"), 12, site)
        }
    }
}

/// Says the last line, if there was memory for it, and answers the status.
fn say_made<S: Site>(line: Result<String, AllocError>, status: u8, site: &mut S) -> u8
    ensures { SaysMade line status (S.view site.old) (S.view site.new) result }
{
    match line {
        Ok(line) => match site.say(line.as_bytes()) {
            Ok(()) => status,
            Err(_) => 9,
        },
        Err(_) => End::NoMemory.status(),
    }
}
