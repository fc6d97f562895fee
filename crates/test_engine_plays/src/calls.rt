// The calls of an engine, each made where it may be.
ghost use Rattle.std.specs.Prelude.{◌≡◌, ◌≤◌, length, IfOk};
ghost use Rattle.flow_core_rules.specs.Changes.{is_in_time};
ghost use Rattle.flow_engine_history.specs.HistoryView.{IsReady};

use cacao_site::{Bytes, Disk, Parcel, Site};
use flow_core::Setup;
use flow_engine::{Engine, EngineError};
use std::alloc::{AllocError, Global};

/// The last moment, in milliseconds.
const LAST: u64 = 9_000_000_000_000_000;

/// Whether a record may come at a moment.
fn is_in_time(engine: &Engine, moment: u64) -> bool
    ensures { result ≡ is_in_time engine.now.history.seen moment }
{
    engine.last_moment() <= moment && moment <= LAST
}

/// Opens an engine.
pub(crate) fn open<D: Disk>(
    alloc: Global,
    disk: &mut D,
    setup: Setup,
    run: u64,
) -> Result<Engine, EngineError>
    ensures { IfOk result (λ engine. IsReady engine.history (D.view disk.new)) }
{
    Engine::open_on(alloc, disk, setup, run)
}

/// Appends the Begin, where there is no record yet.
pub(crate) fn start<S: Site>(
    engine: &mut Engine,
    site: &mut S,
    moment: u64,
) -> Result<bool, EngineError>
    requires ready { IsReady engine.old.history (S.view site.old) }
    ensures ready { IsReady engine.new.history (S.view site.new) }
{
    if engine.count() > 0 || moment > LAST {
        return Ok(false);
    }
    match engine.start(site, moment) {
        Ok(()) => Ok(true),
        Err(error) => Err(error),
    }
}

/// Appends the record of a move, where there is one.
pub(crate) fn step<S: Site>(
    engine: &mut Engine,
    site: &mut S,
    moment: u64,
) -> Result<bool, EngineError>
    requires ready { IsReady engine.old.history (S.view site.old) }
    ensures ready { IsReady engine.new.history (S.view site.new) }
{
    if !is_in_time(engine, moment) {
        return Ok(false);
    }
    engine.step(site, moment)
}

/// Puts the command of an issue, where it waits for a filter.
pub(crate) fn send<S: Site>(
    engine: &mut Engine,
    site: &mut S,
    issue: u32,
    moment: u64,
) -> Result<bool, EngineError>
    requires ready { IsReady engine.old.history (S.view site.old) }
    ensures ready { IsReady engine.new.history (S.view site.new) }
{
    if !engine.awaits(issue) || !is_in_time(engine, moment) {
        return Ok(false);
    }
    match engine.send(site, issue, moment) {
        Ok(()) => Ok(true),
        Err(error) => Err(error),
    }
}

/// A reply of run 7 to its issue 0.
pub(crate) fn reply_of(alloc: Global, agent: u8, run: u64, text: &str) -> Result<Parcel, AllocError>
    requires { length text.now ≤ 1_000 }
    ensures { IfOk result (λ parcel. length parcel.bytes ≤ 1_000) }
{
    Ok(Parcel {
        agent,
        back: true,
        run,
        issue: 0,
        bytes: Bytes::from_slice(alloc, text.as_bytes())?,
    })
}

/// Hands an engine a parcel.
pub(crate) fn reply<S: Site>(
    engine: &mut Engine,
    site: &mut S,
    parcel: &Parcel,
    moment: u64,
) -> Result<bool, EngineError>
    requires small { length parcel.now.bytes ≤ 1_000 }
    requires ready { IsReady engine.old.history (S.view site.old) }
    ensures ready { IsReady engine.new.history (S.view site.new) }
{
    if !is_in_time(engine, moment) {
        return Ok(false);
    }
    engine.reply(site, parcel, moment)
}

/// Appends the Expire of the least issue that is overdue, where there is one.
pub(crate) fn expire<S: Site>(
    engine: &mut Engine,
    site: &mut S,
    moment: u64,
) -> Result<bool, EngineError>
    requires ready { IsReady engine.old.history (S.view site.old) }
    ensures ready { IsReady engine.new.history (S.view site.new) }
{
    if !is_in_time(engine, moment) {
        return Ok(false);
    }
    match engine.overdue(moment) {
        None => Ok(false),
        Some(issue) => match engine.expire(site, issue, moment) {
            Ok(()) => Ok(true),
            Err(error) => Err(error),
        },
    }
}

/// Appends the Upgrade, where the run has begun, goes on and is not upgraded.
pub(crate) fn upgrade<S: Site>(
    engine: &mut Engine,
    site: &mut S,
    moment: u64,
) -> Result<bool, EngineError>
    requires ready { IsReady engine.old.history (S.view site.old) }
    ensures ready { IsReady engine.new.history (S.view site.new) }
{
    let flow = engine.flow();
    if flow.outcome().is_some() || flow.is_upgraded() {
        return Ok(false);
    }
    if engine.count() == 0 || !is_in_time(engine, moment) {
        return Ok(false);
    }
    match engine.upgrade(site, moment) {
        Ok(()) => Ok(true),
        Err(error) => Err(error),
    }
}
