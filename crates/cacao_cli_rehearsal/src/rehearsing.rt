// One rehearsal.
ghost use Rattle.std.specs.Prelude.{◌≡◌, [], IfOk, IfErr, MatchResult};
ghost use Rattle.cacao_site_memory.specs.MemorySite.{view_of};
ghost use Rattle.cacao_cli_rehearsal.specs.NewSites.{EndsByPlan, MayComeOfNew};
ghost use Rattle.cacao_cli_rehearsal.specs.Plans.{GoesByPlan};
ghost use Rattle.cacao_cli_rehearsal.specs.Settings.{IsNewSite};
ghost use Rattle.cacao_cli_rehearsal.specs.Rehearsals.{FailsToRehearse, FailsToRun, Rehearsed, RunsWell, is_well};
ghost use Rattle.cacao_cli_rehearsal.specs.Sites.{inside};

use crate::book::rehearsal_text;
use crate::counting::count;
use crate::error::RehearsalError;
use crate::setting::{no_answers, read_setup};
use crate::site::RehearsalSite;
use crate::summary::Summary;
use cacao_json::TEXT_LIMIT;
use flow_core::Setup;
use flow_engine_answers::Answers;
use flow_world::{Close, session};
use std::alloc::Global;

/// The number of the run.
const RUN: u64 = 1;

/// How many records the session may append.
const MOST_RECORDS: u64 = 1_000_000_000;

/// Whether the run has ended, and well.
fn is_well(close: Close) -> bool
    ensures { result ≡ is_well close }
{
    match close {
        Close::Ended { well } => well,
        Close::Paused => false,
        Close::Waiting { .. } => false,
        Close::Flooded => false,
        Close::Asked { .. } => false,
    }
}

/// Runs what is given on a site in memory, without answers of operators, and counts.
fn run(
    alloc: Global,
    site: &mut RehearsalSite,
    setup: Setup,
    answers: &Answers,
) -> Result<Summary, RehearsalError>
    requires none { answers.now ≡ [] }
    ensures ok { IfOk result (RunsWell setup (view_of (inside site.old)) (view_of (inside site.new))) }
    ensures err { IfErr result (FailsToRun setup (view_of (inside site.old)) (view_of (inside site.new))) }
{
    let close = match session(alloc, site, setup, answers, RUN, MOST_RECORDS) {
        Ok(close) => close,
        Err(error) => return Err(RehearsalError::Refused(error)),
    };
    if !is_well(close) {
        return Err(RehearsalError::Closed(close));
    }
    match count(alloc, site) {
        Ok(summary) => Ok(summary),
        Err(_) => Err(RehearsalError::Memory),
    }
}

/// Makes the playbook with so many positions, and holds one session of it on a site in memory, as `new_site` makes one: run 1, with
/// at most 1,000,000,000 records. Then the records, the acts and the rules are counted.
///
/// On a new site no file is damaged, of another run, or of a filter that acted for the run; and the session neither waits for a
/// moment or for an operator nor comes to the end of its budget. A site that is used up is answered as want of memory, whatever
/// came: so behind each other answer nothing has failed on it.
pub fn rehearse(
    alloc: Global,
    site: &mut RehearsalSite,
    positions: u32,
) -> Result<Summary, RehearsalError>
    ensures ok { IfOk result (Rehearsed positions (view_of (inside site.old)) (view_of (inside site.new))) }
    ensures err { IfErr result (FailsToRehearse positions (view_of (inside site.old)) (view_of (inside site.new))) }
    ensures new_site { IsNewSite (inside site.old) → IfErr result MayComeOfNew }
    ensures by_plan { MatchResult result (λ summary. GoesByPlan (inside site.new)) (EndsByPlan (inside site.new)) }
{
    let text = rehearsal_text(alloc, positions)?;
    if text.len() > TEXT_LIMIT {
        return Err(RehearsalError::TooLong);
    }
    let answers = no_answers(alloc)?;
    let setup = match read_setup(alloc, text) {
        Ok(setup) => setup,
        Err(error) => return Err(error),
    };
    let ran = run(alloc, site, setup, &answers);
    if site.is_sound() {
        ran
    } else {
        Err(RehearsalError::Memory)
    }
}
