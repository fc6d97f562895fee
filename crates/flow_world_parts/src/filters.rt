// The filters of a session. They know nothing of the engine.
ghost use Rattle.std.specs.Prelude.{◌≡◌, ◌↔◌, ◌+◌, ◌≤◌, ℕ, [], false, MatchOption, IsTrue, IfOk, IfErr, OnOk, length};
ghost use Rattle.run_records.specs.Ranges.{last_moment};
ghost use Rattle.flow_world_steps.specs.Images.{HasBegun};
ghost use Rattle.flow_world_steps.specs.Sides.{FiltersReady};
ghost use Rattle.flow_world_steps.specs.Steps.{IsAddressed};
ghost use Rattle.flow_world_parts.specs.Acting.{OneAnswers};
ghost use Rattle.flow_world_parts.specs.Errors.{MayRefuseAct, MayRefuseFile, act_refusal, file_refusal};
ghost use Rattle.flow_world_parts.specs.Leads.{FilterDid};
ghost use Rattle.flow_world_parts.specs.Openings.{HasRunAt, IsFirstRunAt, OpensFilters, OpensNext, RefusesFile, RefusesFilters};

use crate::error::WorldError;
use cacao_site::{Disk, Parcel, Site};
use flow_world_steps::LimitKind;
use slpf_actuator::{ActError, Actuator};
use std::alloc::Global;
use std::marker::Model;

/// The filters of agents 1 to 16, in order; or none, where the filters stand elsewhere.
pub struct Filters {
    list: Vec<Actuator>,
}

// (by hand, and not by derive: so a drop is one call in the proofs of all who own one)
impl Drop for Filters {
    fn drop(self) {
        let Self { list: _ } = self;
    }
}

impl Model for Filters {
    ghost use Rattle.std.specs.Prelude.{List};
    ghost use Rattle.slpf_actuator.specs.ActuatorView.{ActuatorView};

    ghost Value = { List ActuatorView };

    ghost view = { λ filters. filters.list.items };
}

/// The most filters of a session.
const MOST_FILTERS: usize = 16;

/// The refusal of a session one of whose filters refused a command.
fn of_act(error: ActError) -> WorldError
    requires { MayRefuseAct error }
    ensures { result ≡ act_refusal error }
{
    match error {
        ActError::Disk => WorldError::Disk,
        ActError::Full { .. } => WorldError::Limit {
            what: LimitKind::Journal,
        },
        ActError::Memory => WorldError::Memory,
        ActError::Damaged { .. } => unreachable!(),
        ActError::Broken => unreachable!(),
    }
}

/// The refusal of a session that could not open a filter's file.
fn of_file(file: u8, error: ActError) -> WorldError
    requires { MayRefuseFile error }
    ensures { result ≡ file_refusal file error }
{
    match error {
        ActError::Disk => WorldError::Disk,
        ActError::Damaged { place } => WorldError::Damaged { file, place },
        ActError::Memory => WorldError::Memory,
        ActError::Full { .. } => unreachable!(),
        ActError::Broken => unreachable!(),
    }
}

/// Opens the next filter.
fn open_next<D: Disk>(
    alloc: Global,
    disk: &mut D,
    list: &mut Vec<Actuator>,
    agent: u8,
) -> Result<(), WorldError>
    requires next { length list.old.items + 1 ≡ agent }
    requires high { agent ≤ 16 }
    ensures opens { OnOk result (OpensNext agent (D.view disk.old) (D.view disk.new) list.old.items list.new.items) }
    ensures refused { IfErr result (λ error. RefusesFile error agent (D.view disk.old) (D.view disk.new)) }
{
    match Actuator::open_on(alloc, disk, agent) {
        Ok(filter) => match list.push(filter) {
            Ok(()) => Ok(()),
            Err(_) => Err(WorldError::Memory),
        },
        Err(error) => Err(of_file(agent, error)),
    }
}

impl Filters {
    /// Opens the files of agents 1 to 16, in order. It writes nothing.
    pub fn open_on<D: Disk>(alloc: Global, disk: &mut D) -> Result<Filters, WorldError>
        ensures opens { IfOk result (λ filters. OpensFilters 16 (D.view disk.old) (D.view disk.new) filters) }
        ensures refused { IfErr result (λ error. RefusesFilters error (D.view disk.old) (D.view disk.new)) }
    {
        let mut list = Vec::new(alloc);
        // (room for all at once, so that none is moved; where it is wanting, each push asks again)
        let _ = list.reserve(MOST_FILTERS);
        for agent in 1..17u8 {
            match open_next(alloc, disk, &mut list, agent) {
                Ok(()) => {}
                Err(error) => return Err(error),
            }
        }
        Ok(Filters { list })
    }

    /// No filter: each command goes elsewhere.
    pub fn none(alloc: Global) -> Filters
        ensures { result ≡ [] }
    {
        Filters {
            list: Vec::new(alloc),
        }
    }

    /// Whether the filter of an agent from 1 on is here.
    pub fn has(&self, agent: u8) -> bool
        ensures { IsTrue result ↔ (agent ≤ length self.now) }
    {
        agent as usize <= self.list.len()
    }

    /// The least agent whose filter is here and has an act of this run.
    pub fn first_with_run(&self, run: u64) -> Option<u8>
        requires { length self.now ≤ 16 }
        ensures { MatchOption result ((agent : ℕ) → 1 ≤ agent → agent ≤ 16 → HasRunAt self.now run agent → ⊥)
            (λ agent. IsFirstRunAt self.now run agent) }
    {
        for agent in 1..self.list.len() as u8 + 1 {
            if self.list[agent as usize - 1].has_run(run) {
                return Some(agent);
            }
        }
        None
    }

    /// Hands a command to its filter, whatever has begun; true exactly where it acted, false where it had acted on it before. Moments are
    /// in milliseconds.
    pub fn act<S: Site>(
        &mut self,
        site: &mut S,
        parcel: &Parcel,
        now: u64,
    ) -> Result<bool, ActError>
        requires filters { FiltersReady self.old (S.view site.old) }
        requires here { parcel.now.agent ≤ length self.old }
        requires in_time { now ≤ last_moment }
        requires addressed { IsAddressed parcel.now }
        requires command { parcel.now.back ≡ false }
        ensures answers { OneAnswers result parcel.now now (S.view site.old) (S.view site.new) self.old self.new }
        ensures filters { OnOk result (FiltersReady self.new (S.view site.new)) }
        ensures may { IfErr result MayRefuseAct }
    {
        let filter = &mut self.list[parcel.agent as usize - 1];
        filter.handle(site, parcel, now)
    }

    /// Hands a command to its filter; true exactly where it acted, false where it had acted on it before.
    pub fn hand<S: Site>(
        &mut self,
        site: &mut S,
        parcel: &Parcel,
        now: u64,
    ) -> Result<bool, WorldError>
        requires filters { FiltersReady self.old (S.view site.old) }
        requires here { parcel.now.agent ≤ length self.old }
        requires now { now ≡ (S.view site.old).clock.now }
        requires in_time { now ≤ last_moment }
        requires addressed { IsAddressed parcel.now }
        requires command { parcel.now.back ≡ false }
        requires begun { IsTrue (S.view site.old).disk.told → HasBegun (S.view site.old) (S.view site.old).disk.beat }
        ensures did { (beat : ℕ) → FilterDid result beat parcel.now (S.view site.old) self.old (S.view site.new) self.new }
        ensures now { (S.view site.new).clock.now ≡ (S.view site.old).clock.now }
    {
        match self.act(site, parcel, now) {
            Ok(acted) => Ok(acted),
            Err(error) => Err(of_act(error)),
        }
    }
}
