// The filter.
ghost use Rattle.std.specs.Prelude.{◌≡◌, ◌↔◌, ◌≤◌, IsTrue, Any, length};
ghost use Rattle.slpf_rules_acts.specs.Acts.{table_of};
ghost use Rattle.slpf_actuator_acts.specs.ActLists.{IsHistory};
ghost use Rattle.slpf_actuator_acts.specs.ActuatorView.{ActuatorView};

use run_journal::Journal;
use slpf_actuator_acts::History;
use slpf_rules::Table;
use std::alloc::Global;
use std::marker::Model;

/// A simulated packet filter (OpenC2 SLPF 1.0) whose acts are kept in a journal, the file of its agent.
///
/// After a refusal of `handle` it answers `Broken` to commands until it is opened again. Its acts and its table then are
/// as they were before the refused call, while the file may have the act of that call too.
pub struct Actuator {
    pub(crate) alloc: Global,
    pub(crate) journal: Journal,
    pub(crate) history: History,
    pub(crate) broken: bool,
}

// (by hand, and not by derive: so a drop is one call in the proofs of all who own one)
impl Drop for Actuator {
    fn drop(self) {
        let Self {
            alloc: _,
            journal: _,
            history: _,
            broken: _,
        } = self;
    }
}

impl Model for Actuator {
    ghost use Rattle.slpf_actuator_acts.specs.ActuatorView.{ActuatorView};

    ghost Value = { ActuatorView };

    ghost use Rattle.slpf_actuator.specs.Inside.{actuator_view, IsKept};

    ghost view = { actuator_view };

    ghost invariant = { IsKept };
}

impl Actuator {
    /// Whether there is an act of this run. It takes no memory.
    pub fn has_run(&self, run: u64) -> bool
        ensures { IsTrue result ↔ Any (λ act. act.run ≡ run) self.now.acts }
    {
        self.history.has_run(run)
    }

    /// The rules after the acts. It takes no memory.
    pub fn table(&self) -> &Table
        ensures { result.now ≡ table_of self.now.acts }
    {
        self.history.table()
    }

    /// How many acts there are. It takes no memory.
    pub fn count(&self) -> u32
        ensures value { result ≡ length self.now.acts }
        ensures history { IsHistory self.now.acts }
        ensures agent { (1 ≤ self.now.agent) × (self.now.agent ≤ 16) }
    {
        self.history.count()
    }
}
