// What a fleet does with the run at a place.
ghost use Rattle.std.specs.Prelude.{◌≡◌, ◌≢◌, ◌+◌, ◌<◌, ◌≤◌, ℕ, [], length, true, Some, Ok, OnOk, slice_get};
ghost use Rattle.flow_engine.specs.EngineView.{EngineView};
ghost use Rattle.flow_world_steps.specs.Steps.{IsAddressed};
ghost use Rattle.flow_world_steps.specs.Worlds.{holds, looked, rests};
ghost use Rattle.flow_fleet_steps.specs.Turns.{HasNoMove, HasNoneOverdue, IsSettled, IsTurnOf, turn_after};
ghost use Rattle.flow_fleet_steps.specs.Worlds.{EachBelow, EachRun};
ghost use Rattle.flow_fleet.specs.Leads.{Did, HasBegun, IsBetweenTurns, IsWorking, SomeGoes, Tried};
ghost use Rattle.flow_fleet.specs.Searches.{IsFirstOverdue, IsFirstResend};

use crate::fleet_state::Fleet;
use crate::run_side::{begin_run, expire, make_move, put_waiting, resend, take_reply};
use cacao_site::{Parcel, Rack};
use flow_fleet_steps::FleetError;

/// The place behind this one in the circle of so many.
fn behind(place: u8, count: usize) -> u8
    requires few { count ≤ 16 }
    requires here { place < count }
    ensures { result ≡ turn_after count place }
{
    if place as usize + 1 == count {
        return 0;
    }
    place + 1
}

impl Fleet {
    /// Appends the Begin of the run at a place, whose journal is empty, and puts each command of it that waits.
    pub(crate) fn begin<R: Rack>(&mut self, rack: &mut R, place: u8) -> Result<(), FleetError>
        requires works { IsWorking self.old (R.view rack.old) }
        requires here { place < length self.old.engines.items }
        requires empty { (v : EngineView) → slice_get self.old.engines.items place ≡ Some v → v.history.records ≡ [] }
        requires puts { (v : EngineView) → slice_get self.old.engines.items place ≡ Some v → v.puts ≡ [] }
        requires settled { EachBelow place self.old.engines.items (IsSettled (R.view rack.old)) }
        requires some { 1 ≤ self.old.left }
        ensures did { Did result (R.view rack.old) self.old rests (R.view rack.new) self.new }
        ensures begun { OnOk result (HasBegun place self.old self.new (R.view rack.new)) }
    {
        let now = self.now;
        match begin_run(
            self.alloc,
            &mut self.engines[place as usize],
            rack,
            place,
            now,
        ) {
            Ok(()) => {
                self.left -= 1;
                Ok(())
            }
            Err(error) => Err(error),
        }
    }

    /// Puts each command of the run at a place that waits.
    pub(crate) fn put_waiting<R: Rack>(&mut self, rack: &mut R, place: u8) -> Result<(), FleetError>
        requires works { IsWorking self.old (R.view rack.old) }
        requires here { place < length self.old.engines.items }
        requires begun { (v : EngineView) → slice_get self.old.engines.items place ≡ Some v → v.history.records ≢ [] }
        requires puts { (v : EngineView) → slice_get self.old.engines.items place ≡ Some v → v.puts ≡ [] }
        requires settled { EachBelow place self.old.engines.items (IsSettled (R.view rack.old)) }
        ensures did { Did result (R.view rack.old) self.old rests (R.view rack.new) self.new }
        ensures begun { OnOk result (HasBegun place self.old self.new (R.view rack.new)) }
    {
        let now = self.now;
        put_waiting(&mut self.engines[place as usize], rack, place, now)
    }

    /// Appends the record of the move of the run at a place, and puts the command that it sends. The next turn is that of the place behind it.
    pub(crate) fn make_move<R: Rack>(&mut self, rack: &mut R, place: u8) -> Result<(), FleetError>
        requires between { IsBetweenTurns self.old (R.view rack.old) }
        requires some { 1 ≤ self.old.left }
        requires goes { SomeGoes self.old.engines.items }
        requires turn { IsTurnOf self.old.engines.items self.old.turn self.old.now place }
        ensures did { Did result (R.view rack.old) self.old looked (R.view rack.new) self.new }
        ensures between { OnOk result (IsBetweenTurns self.new (R.view rack.new)) }
    {
        let now = self.now;
        let turn = behind(place, self.engines.len());
        match make_move(
            self.alloc,
            &mut self.engines[place as usize],
            rack,
            place,
            now,
        ) {
            Ok(()) => {
                self.left -= 1;
                self.turn = turn;
                Ok(())
            }
            Err(error) => Err(error),
        }
    }

    /// Appends the Expire of the least issue of the run at a place that is at its deadline.
    pub(crate) fn expire<R: Rack>(&mut self, rack: &mut R, place: u8) -> Result<(), FleetError>
        requires between { IsBetweenTurns self.old (R.view rack.old) }
        requires some { 1 ≤ self.old.left }
        requires goes { SomeGoes self.old.engines.items }
        requires idle { EachRun self.old.engines.items (λ other. HasNoMove self.old.now) }
        requires overdue { IsFirstOverdue self.old.engines.items self.old.now place }
        ensures did { Did result (R.view rack.old) self.old looked (R.view rack.new) self.new }
        ensures between { OnOk result (IsBetweenTurns self.new (R.view rack.new)) }
    {
        let now = self.now;
        match expire(
            self.alloc,
            &mut self.engines[place as usize],
            rack,
            place,
            now,
        ) {
            Ok(()) => {
                self.left -= 1;
                Ok(())
            }
            Err(error) => Err(error),
        }
    }

    /// Appends the Reply of a parcel in hand to the journal at a place; false, and nothing changed, exactly where it is no final reply of
    /// this run from the filter of an issue that waits.
    pub(crate) fn reply<R: Rack>(
        &mut self,
        rack: &mut R,
        place: u8,
        parcel: &Parcel,
    ) -> Result<bool, FleetError>
        requires between { IsBetweenTurns self.old (R.view rack.old) }
        requires here { place < length self.old.engines.items }
        requires some { 1 ≤ self.old.left }
        requires addressed { IsAddressed parcel.now }
        requires back { parcel.now.back ≡ true }
        ensures tried { (beat : ℕ) → Tried result parcel.now place (R.view rack.old) self.old (holds beat parcel.now) (R.view rack.new) self.new }
        ensures between { OnOk result (IsBetweenTurns self.new (R.view rack.new)) }
        ensures few { OnOk result (self.new.ignored ≡ self.old.ignored) }
    {
        let now = self.now;
        match take_reply(
            self.alloc,
            &mut self.engines[place as usize],
            rack,
            place,
            parcel,
            now,
        ) {
            Ok(true) => {
                self.left -= 1;
                Ok(true)
            }
            Ok(false) => Ok(false),
            Err(error) => Err(error),
        }
    }

    /// Puts a command of the run at a place again.
    pub(crate) fn resend<R: Rack>(
        &mut self,
        rack: &mut R,
        place: u8,
        moment: u64,
        issue: u32,
    ) -> Result<(), FleetError>
        requires between { IsBetweenTurns self.old (R.view rack.old) }
        requires some { 1 ≤ self.old.left }
        requires goes { SomeGoes self.old.engines.items }
        requires idle { EachRun self.old.engines.items (λ other. HasNoMove self.old.now) }
        requires on_time { EachRun self.old.engines.items (λ other. HasNoneOverdue self.old.now) }
        requires resend { IsFirstResend self.old.engines.items self.old.now place moment issue }
        ensures did { Did result (R.view rack.old) self.old looked (R.view rack.new) self.new }
        ensures between { OnOk result (IsBetweenTurns self.new (R.view rack.new)) }
    {
        let now = self.now;
        resend(
            &mut self.engines[place as usize],
            rack,
            place,
            moment,
            issue,
            now,
        )
    }
}
