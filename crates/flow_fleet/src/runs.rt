// The runs of a fleet.
ghost use Rattle.std.specs.Prelude.{◌≡◌, ◌↔◌, ◌⊎◌, ◌++◌, ◌∷◌, ◌≤◌, [], length, IfOk, IsTrue, OnErr, false, true};
ghost use Rattle.std.specs.Prelude.{Any, Contains};
ghost use Rattle.flow_fleet.specs.Fleets.{AreFleetRuns};
ghost use Rattle.flow_fleet_steps.specs.Openings.{numbers};

use flow_core::Setup;
use std::alloc::{AllocError, Global};
use std::marker::Model;

/// The runs of a fleet, by place: 1 to 16 numbers, each once, with what each run is given.
pub struct FleetRuns {
    list: Vec<(u64, Setup)>,
}

// (by hand, and not by derive: so a drop is one call in the proofs of all who own one)
impl Drop for FleetRuns {
    fn drop(self) {
        let Self { list: _ } = self;
    }
}

impl Model for FleetRuns {
    ghost use Rattle.flow_fleet_steps.specs.Openings.{Runs};

    ghost Value = { Runs };

    ghost view = { λ runs. runs.list.items };

    ghost use Rattle.flow_fleet.specs.Fleets.{AreFleetRuns};

    ghost invariant = { λ runs. AreFleetRuns runs.list.items };
}

/// Whether a run of the list has this number.
fn is_among(list: &[(u64, Setup)], run: u64) -> bool
    ensures { IsTrue result ↔ Any (λ one. one.0 ≡ run) list.now }
{
    list.iter().any(|one| one.0 == run)
}

impl FleetRuns {
    /// The most runs of a fleet.
    pub const MOST: usize = 16;

    /// One run, at place 0.
    pub fn new(alloc: Global, run: u64, setup: Setup) -> Result<FleetRuns, AllocError>
        ensures { IfOk result (λ runs. runs ≡ (run, setup) ∷ []) }
    {
        let mut list = Vec::new(alloc);
        list.push((run, setup))?;
        Ok(FleetRuns { list })
    }

    /// How many there are.
    pub fn len(&self) -> usize
        ensures { result ≡ length self.now }
    {
        self.list.len()
    }

    /// Whether one of them has this number.
    pub fn has(&self, run: u64) -> bool
        ensures { IsTrue result ↔ Contains (numbers self.now) run }
    {
        is_among(self.list.as_slice(), run)
    }

    /// One run more, at the next place; false, and nothing changed, exactly where there are 16 or one has its number. What it is given is
    /// given up then.
    pub fn push(&mut self, run: u64, setup: Setup) -> Result<bool, AllocError>
        ensures added { result ≡ Ok true → self.new ≡ self.old ++ (run, setup) ∷ [] }
        ensures full { result ≡ Ok false → (16 ≤ length self.old) ⊎ Contains (numbers self.old) run }
        ensures stays { result ≡ Ok false → self.new ≡ self.old }
        ensures err { OnErr result (self.new ≡ self.old) }
    {
        if self.list.len() >= FleetRuns::MOST || self.has(run) {
            return Ok(false);
        }
        self.list.push((run, setup))?;
        Ok(true)
    }

    /// What holds of each list of runs. The function does nothing; its contract is the law.
    pub fn law(&self)
        ensures { AreFleetRuns self.now }
    {
        let _ = &self.list;
    }

    /// All of them, by place.
    pub(crate) fn into_list(self) -> Vec<(u64, Setup)>
        ensures list { result.items ≡ self }
        ensures runs { AreFleetRuns self }
    {
        let Self { list } = self;
        list
    }
}
