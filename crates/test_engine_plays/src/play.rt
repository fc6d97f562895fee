// A site on which engines are played.
ghost use Rattle.std.specs.Prelude.{IfOk};
ghost use Rattle.flow_core.specs.Setups.{IsReadable};
ghost use Rattle.flow_engine_history.specs.HistoryView.{IsReady};

use crate::call::Call;
use crate::calls::open;
use crate::lives::{Life, live};
use cacao_site::{Bytes, Disk, Site};
use cacao_site_memory::{CallList, MemorySite, SitePlan, WeatherList};
use flow_core::{Setup, SetupError};
use flow_engine::{Engine, EngineError};
use std::alloc::{AllocError, Global};

/// What came of an opening.
#[derive(Drop)]
pub enum Played {
    /// The playbook is not accepted.
    NoSetup,
    /// The opening was refused.
    Unopened(EngineError),
    Lived(Life),
}

/// A site on which engines are played.
pub struct EnginePlay {
    alloc: Global,
    site: MemorySite,
}

impl Drop for EnginePlay {
    fn drop(self) {
        let Self { alloc: _, site: _ } = self;
    }
}

/// A plan with ample room, in which the device call of this number fails, from 0.
fn plan(alloc: Global, failing: Option<u32>) -> Result<SitePlan, AllocError> {
    let mut calls = Vec::new(alloc);
    if let Some(call) = failing {
        calls.push(call)?;
    }
    Ok(SitePlan {
        room: 100_000,
        calls: 1_000,
        start: 0,
        stop_clock: 1_000_000,
        failing: CallList::from_vec(calls),
        weather: WeatherList::from_vec(Vec::new(alloc)),
    })
}

/// The bytes of a text; none where it is too long to be read.
fn bytes_of(alloc: Global, text: &str) -> Result<Bytes, AllocError>
    ensures { IfOk result (λ bytes. IsReadable bytes) }
{
    if text.len() > 1_048_576 {
        return Bytes::from_slice(alloc, b"");
    }
    Bytes::from_slice(alloc, text.as_bytes())
}

/// The setup of a playbook, without bindings.
fn setup(alloc: Global, text: &str) -> Result<Setup, SetupError> {
    let bind = Bytes::from_slice(alloc, b"")?;
    let texts = [bytes_of(alloc, text)?];
    Setup::read(alloc, &texts, &bind)
}

/// What comes of the calls of an engine that is open.
fn lived<S: Site>(
    alloc: Global,
    engine: &mut Engine,
    site: &mut S,
    calls: &[Call<'_>],
) -> Result<Played, AllocError>
    requires ready { IsReady engine.old.history (S.view site.old) }
{
    let life = live(alloc, engine, site, calls)?;
    Ok(Played::Lived(life))
}

/// Opens file 0 of a site for a run of a setup, and makes calls.
fn open_and_live<S: Site>(
    alloc: Global,
    site: &mut S,
    setup: Setup,
    run: u64,
    calls: &[Call<'_>],
) -> Result<Played, AllocError> {
    match open(alloc, site, setup, run) {
        Ok(mut engine) => lived(alloc, &mut engine, site, calls),
        Err(error) => Ok(Played::Unopened(error)),
    }
}

impl EnginePlay {
    /// A new site, on which the device call of this number fails, from 0.
    pub fn new(alloc: Global, failing: Option<u32>) -> Result<EnginePlay, AllocError> {
        let plan = plan(alloc, failing)?;
        let site = MemorySite::new(alloc, plan)?;
        Ok(EnginePlay { alloc, site })
    }

    /// The site after a crash that is picked so, without failures: 0 leaves what a read gives, 1 what was synced, and others something
    /// between.
    pub fn crash(self, choice: u64) -> Result<EnginePlay, AllocError> {
        let plan = plan(self.alloc, None)?;
        let Self { alloc, site } = self;
        let site = site.crash_with(choice, plan)?;
        Ok(EnginePlay { alloc, site })
    }

    /// Writes file 0 from its front on; false where that failed, or there are more than 1,000 bytes.
    pub fn fill(&mut self, bytes: &[u8]) -> bool {
        if bytes.len() > 1_000 {
            return false;
        }
        self.site.write(0, 0, bytes).is_ok() && self.site.sync(0).is_ok()
    }

    /// Opens file 0 for a run of a playbook with this text, and makes calls of the engine up to the first that is refused.
    pub fn play(&mut self, text: &str, run: u64, calls: &[Call<'_>]) -> Result<Played, AllocError> {
        match setup(self.alloc, text) {
            Ok(setup) => open_and_live(self.alloc, &mut self.site, setup, run, calls),
            Err(_) => Ok(Played::NoSetup),
        }
    }
}
