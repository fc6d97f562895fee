// The command `rehearse`.
ghost use Rattle.std.specs.Prelude.{◌≡◌};
ghost use Rattle.cacao_cli_ends.specs.Ends.{rehearsed};
ghost use Rattle.cacao_cli_ends.specs.Told.{end_of};
ghost use Rattle.cacao_cli_status_laws.specs.Rehearsing.{Rehearses, TellsRehearsal, failed_end};

use cacao_cli_ends::{End, Limit};
use cacao_cli_rehearsal::{RehearsalError, Summary, new_site};
use cacao_cli_session::{close_end, error_end};
use cacao_cli_words::Positions;
use cacao_site::Site;
use std::alloc::Global;

/// `rehearse`: runs the playbook with so many positions on a site of its own, and says what was counted.
pub fn rehearse<'w, S: Site>(alloc: Global, positions: Positions, _site: &mut S) -> End<'w>
    ensures { Rehearses positions.count (S.view _site.old) (S.view _site.new) (end_of result) }
{
    on_new_site(alloc, positions)
}

/// How a call ends that holds this rehearsal.
fn on_new_site<'w>(alloc: Global, wanted: Positions) -> End<'w>
    ensures { TellsRehearsal wanted.count (end_of result) }
{
    let positions = wanted.count;
    let mut site = match new_site(alloc) {
        Ok(site) => site,
        Err(_) => return End::NoMemory,
    };
    match cacao_cli_rehearsal::rehearse(alloc, &mut site, positions) {
        Ok(summary) => rehearsed_end(positions, summary),
        Err(error) => failed_end(error),
    }
}

/// How a call ends whose rehearsal was counted.
fn rehearsed_end<'w>(positions: u32, summary: Summary) -> End<'w>
    ensures { end_of result ≡ rehearsed positions summary.records summary.acts summary.rules }
{
    End::Rehearsed {
        positions,
        records: summary.records,
        acts: summary.acts,
        rules: summary.rules,
    }
}

/// How a call ends whose rehearsal has no summary.
fn failed_end<'w>(error: RehearsalError) -> End<'w>
    ensures { end_of result ≡ failed_end error }
{
    match error {
        RehearsalError::TooLong => End::Past {
            limit: Limit::FileBytes,
        },
        RehearsalError::Broken(broken) => End::Refused { broken },
        RehearsalError::Closed(close) => close_end(close),
        RehearsalError::Refused(error) => error_end(error),
        RehearsalError::Memory => End::NoMemory,
    }
}
