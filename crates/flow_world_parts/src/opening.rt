// The opening of a session's files, and what follows once they are open.
ghost use Rattle.std.specs.Prelude.{◌≡◌, ◌≤◌, ℕ, [], MatchOption, IfOk, IfErr, length};
ghost use Rattle.flow_world_steps.specs.Sides.{FiltersReady, IsWhole};
ghost use Rattle.flow_world_steps.specs.Worlds.{Notes, opened};
ghost use Rattle.flow_world_parts.specs.Leads.{EndedAt, IsNewTo, at};
ghost use Rattle.flow_world_parts.specs.Openings.{AreOpen, HasRunAt, IsFirstRunAt, RefusesOpening};

use crate::clock::reach;
use crate::close::Close;
use crate::error::{WorldError, of_opening};
use crate::filters::Filters;
use crate::turns::Session;
use cacao_site::Site;
use flow_engine_answers::Answers;
use flow_world_steps::{Engine, Setup};
use std::alloc::Global;

/// Opens the journal for a run, and then the files of the filters in order. It writes nothing.
pub fn open_files<S: Site>(
    alloc: Global,
    site: &mut S,
    setup: Setup,
    run: u64,
) -> Result<(Engine, Filters), WorldError>
    ensures opens { IfOk result (λ files. AreOpen setup run (S.view site.old) (S.view site.new) files.0 files.1) }
    ensures refused { IfErr result (λ error. RefusesOpening error setup run (S.view site.old) (S.view site.new)) }
{
    let engine = match Engine::open_on(alloc, site, setup, run) {
        Ok(engine) => engine,
        Err(error) => return Err(of_opening(error)),
    };
    engine.law();
    match Filters::open_on(alloc, site) {
        Ok(filters) => Ok((engine, filters)),
        Err(error) => Err(error),
    }
}

/// The least filter here that has an act of the run, where the journal is empty.
fn user_of(engine: &Engine, filters: &Filters, run: u64) -> Option<u8>
    requires { length filters.now ≤ 16 }
    ensures { MatchOption result (engine.now.history.records ≡ [] → (agent : ℕ) → 1 ≤ agent → agent ≤ 16 → HasRunAt filters.now run agent → ⊥)
        (λ agent. (engine.now.history.records ≡ []) × IsFirstRunAt filters.now run agent) }
{
    if engine.count() != 0 {
        return None;
    }
    filters.first_with_run(run)
}

/// What a session does once all its files are open: none of its filters has an act of a run whose journal is empty, the clock is asked for
/// the moment of the last record, and the session runs. At most as many records are appended as the session has left.
fn run_session<S: Site>(
    session: &mut Session,
    site: &mut S,
    answers: &Answers,
    run: u64,
) -> Result<Close, WorldError>
    requires whole { IsWhole session.old.engine (S.view site.old) }
    requires filters { FiltersReady session.old.filters (S.view site.old) }
    requires of_run { session.old.engine.history.seen.run ≡ run }
    requires no_puts { session.old.engine.puts ≡ [] }
    requires none { session.old.ignored ≡ 0 }
    requires some { 1 ≤ session.old.left }
    ensures ended { (notes : Notes) → IsNewTo answers.now session.old.left notes
        → EndedAt result (S.view site.new) (at (S.view site.old) session.old.engine session.old.filters notes opened) }
{
    if let Some(agent) = user_of(&session.engine, &session.filters, run) {
        return Err(WorldError::RunUsed { agent });
    }
    let last = session.engine.last_moment();
    match reach(site, last) {
        Ok(Some(now)) => {
            session.now = now;
            session.run(site, answers)
        }
        Ok(None) => Ok(Close::Waiting { due: last }),
        Err(error) => Err(error),
    }
}

/// What follows once all files are open, beside any filters: none of them has an act of a run whose journal is empty, the clock is asked
/// for the moment of the last record, and the session runs. At most `most` records are appended.
pub fn run_opened<S: Site>(
    site: &mut S,
    engine: Engine,
    filters: Filters,
    answers: &Answers,
    run: u64,
    most: u64,
) -> Result<Close, WorldError>
    requires whole { IsWhole engine (S.view site.old) }
    requires filters { FiltersReady filters (S.view site.old) }
    requires of_run { engine.history.seen.run ≡ run }
    requires no_puts { engine.puts ≡ [] }
    requires some { 1 ≤ most }
    ensures ended { (notes : Notes) → IsNewTo answers.now most notes
        → EndedAt result (S.view site.new) (at (S.view site.old) engine filters notes opened) }
{
    // The clock was not asked for the present moment yet.
    let mut session = Session {
        engine,
        filters,
        now: 0,
        left: most,
        ignored: 0,
    };
    run_session(&mut session, site, answers, run)
}
