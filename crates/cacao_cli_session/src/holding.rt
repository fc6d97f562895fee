// One session, and how the call ends that holds it.
ghost use Rattle.std.specs.Prelude.{◌≡◌, ◌≤◌};
ghost use Rattle.cacao_cli_ends.specs.Told.{end_of};
ghost use Rattle.cacao_cli_session.specs.Holding.{HoldsSo, close_end, error_end, limit_of};

use cacao_cli_ends::{End, Limit};
use cacao_site::Site;
use flow_core::{LimitKind, Setup};
use flow_engine_answers::Answers;
use flow_world::{Close, WorldError, session};
use std::alloc::Global;

/// The quantity whose limit a session would pass.
pub fn limit_of(what: LimitKind) -> Limit
    ensures { result ≡ limit_of what }
{
    match what {
        LimitKind::Journal => Limit::JournalBytes,
        LimitKind::Tasks => Limit::TaskCount,
        LimitKind::Moment => Limit::LastMoment,
        LimitKind::Command => Limit::CommandBytes,
    }
}

/// How a call ends whose session closed so.
pub fn close_end<'w>(close: Close) -> End<'w>
    ensures { end_of result ≡ close_end close }
{
    match close {
        Close::Ended { well: true } => End::EndedOk,
        Close::Ended { well: false } => End::EndedFailed,
        Close::Paused => End::Paused,
        Close::Waiting { due } => End::Waiting { moment: due },
        Close::Flooded => End::Flooded,
        Close::Asked { issue } => End::Asked { issue },
    }
}

/// How a call ends whose session refused.
pub fn error_end<'w>(error: WorldError) -> End<'w>
    ensures { end_of result ≡ error_end error }
{
    match error {
        WorldError::Disk => End::DiskFailed,
        WorldError::Damaged { file, place } => End::Damaged { file, place },
        WorldError::OtherRun { held, asked } => End::OtherRun { held, asked },
        WorldError::OtherBook { index } => End::OtherBook { index },
        WorldError::RunUsed { agent } => End::RunUsed { agent },
        WorldError::Limit { what } => End::Past {
            limit: limit_of(what),
        },
        WorldError::Say => End::Unsaid,
        WorldError::Memory => End::NoMemory,
    }
}

/// Holds the session; the end is that of what it answers.
pub fn hold<'w, S: Site>(
    alloc: Global,
    setup: Setup,
    answers: &Answers,
    run: u64,
    most: u64,
    site: &mut S,
) -> End<'w>
    requires { 1 ≤ most }
    ensures { HoldsSo setup run most answers.now (S.view site.old) (S.view site.new) (end_of result) }
{
    match session(alloc, site, setup, answers, run, most) {
        Ok(close) => close_end(close),
        Err(error) => error_end(error),
    }
}
