// The turns of a fleet.
ghost use Rattle.std.specs.Prelude.{◌≡◌, ◌<◌, ◌≤◌, [], length, None, Some, Ok, IfSome, slice_get};
ghost use Rattle.cacao_site.specs.View.{SiteView};
ghost use Rattle.flow_engine.specs.EngineView.{EngineView};
ghost use Rattle.flow_world_steps.specs.Worlds.{rests};
ghost use Rattle.flow_fleet_steps.specs.Turns.{IsSettled};
ghost use Rattle.flow_fleet_steps.specs.Worlds.{EachBelow, EachRun};
ghost use Rattle.flow_fleet.specs.Leads.{ClosesFrom, Ended, HasBegun, IsBetweenTurns, IsWorking, SomeGoes, Turned};
ghost use Rattle.flow_fleet.specs.Used.{used};

use crate::fleet_state::Fleet;
use crate::searches::{first_failed, first_going};
use cacao_site::Rack;
use flow_core::accepted_is_runnable;
use flow_fleet_steps::{FleetClose, FleetError};

impl Fleet {
    /// One turn: the fleet goes on behind it, or closes.
    fn take_turn<R: Rack>(&mut self, rack: &mut R) -> Result<Option<FleetClose>, FleetError>
        requires between { IsBetweenTurns self.old (R.view rack.old) }
        requires some { 1 ≤ self.old.left }
        requires goes { SomeGoes self.old.engines.items }
        ensures turned { Turned result (R.view rack.old) self.old rests (R.view rack.new) self.new }
        ensures between { result ≡ Ok None → IsBetweenTurns self.new (R.view rack.new) }
        ensures more { result ≡ Ok None → used (R.view rack.old) self.old < used (R.view rack.new) self.new }
    {
        accepted_is_runnable();
        match rack.take() {
            Ok(Some(parcel)) => self.deliver(rack, &parcel),
            Ok(None) => self.go_on(rack),
            Err(_) => Err(FleetError::Memory),
        }
    }

    /// How the fleet closes before a turn: every run has ended, or no record more may be appended. Else a run goes on.
    fn close_before_turn(&self) -> Option<FleetClose>
        requires few { length self.now.engines.items ≤ 16 }
        ensures turn { result ≡ None → (1 ≤ self.entry.now.left) × SomeGoes self.entry.now.engines.items }
        ensures closes { (site : SiteView) → IsBetweenTurns self.entry.now site → IfSome result (λ close. ClosesFrom close site self.entry.now rests site) }
    {
        if first_going(&self.engines).is_none() {
            return Some(FleetClose::Ended {
                failed: first_failed(&self.engines),
            });
        }
        if self.left == 0 {
            return Some(FleetClose::Paused);
        }
        None
    }

    /// Turns, up to a close.
    fn run_on<R: Rack>(&mut self, rack: &mut R) -> Result<FleetClose, FleetError>
        requires between { IsBetweenTurns self.old (R.view rack.old) }
        ensures ended { Ended result (R.view rack.old) self.old rests (R.view rack.new) }
    {
        loop {
            if let Some(close) = self.close_before_turn() {
                return Ok(close);
            }
            match self.take_turn(rack) {
                Ok(None) => {}
                Ok(Some(close)) => return Ok(close),
                Err(error) => return Err(error),
            }
        }
    }

    /// The Begin of the run at a place, where its journal is empty, and each command of it that waits. The fleet closes where a Begin is to
    /// come and no record more may be appended.
    fn begin_at<R: Rack>(
        &mut self,
        rack: &mut R,
        place: u8,
    ) -> Result<Option<FleetClose>, FleetError>
        requires works { IsWorking self.old (R.view rack.old) }
        requires here { place < length self.old.engines.items }
        requires puts { (v : EngineView) → slice_get self.old.engines.items place ≡ Some v → v.puts ≡ [] }
        requires settled { EachBelow place self.old.engines.items (IsSettled (R.view rack.old)) }
        requires calm { self.old.ignored ≡ 0 }
        ensures turned { Turned result (R.view rack.old) self.old rests (R.view rack.new) self.new }
        ensures begun { result ≡ Ok None → HasBegun place self.old self.new (R.view rack.new) }
    {
        if self.engines[place as usize].count() != 0 {
            return match self.put_waiting(rack, place) {
                Ok(()) => Ok(None),
                Err(error) => Err(error),
            };
        }
        if self.left == 0 {
            return Ok(Some(FleetClose::Paused));
        }
        match self.begin(rack, place) {
            Ok(()) => Ok(None),
            Err(error) => Err(error),
        }
    }

    /// What follows once the clock stands at the greatest moment of a last record: Begins and commands by place, and the turns.
    pub(crate) fn run<R: Rack>(&mut self, rack: &mut R) -> Result<FleetClose, FleetError>
        requires works { IsWorking self.old (R.view rack.old) }
        requires puts { EachRun self.old.engines.items (λ place v. v.puts ≡ []) }
        requires calm { self.old.ignored ≡ 0 }
        ensures ended { Ended result (R.view rack.old) self.old rests (R.view rack.new) }
    {
        for place in 0..self.engines.len() as u8 {
            match self.begin_at(rack, place) {
                Ok(None) => {}
                Ok(Some(close)) => return Ok(close),
                Err(error) => return Err(error),
            }
        }
        self.run_on(rack)
    }
}
