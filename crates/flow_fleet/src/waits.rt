// What a fleet does in a turn whose take found no parcel.
ghost use Rattle.std.specs.Prelude.{◌≡◌, ◌≤◌, None, Ok};
ghost use Rattle.flow_world_steps.specs.Worlds.{looked};
ghost use Rattle.flow_fleet_steps.specs.Turns.{HasNoMove, HasNoResend, HasNoneOverdue, IsLeastNext};
ghost use Rattle.flow_fleet_steps.specs.Worlds.{EachRun};
ghost use Rattle.flow_fleet.specs.Leads.{IsBetweenTurns, SomeGoes, Turned};

use crate::due::{FleetDue, first_due};
use crate::fleet_state::Fleet;
use cacao_site::Rack;
use flow_core::{LimitKind, accepted_is_runnable};
use flow_fleet_steps::{FleetClose, FleetError};
use flow_world_parts::clock::reach;
use run_records::LAST_MOMENT;

impl Fleet {
    /// Asks the clock for a moment, up to the last one.
    fn wait_for<R: Rack>(
        &mut self,
        rack: &mut R,
        moment: u64,
    ) -> Result<Option<FleetClose>, FleetError>
        requires between { IsBetweenTurns self.old (R.view rack.old) }
        requires some { 1 ≤ self.old.left }
        requires goes { SomeGoes self.old.engines.items }
        requires idle { EachRun self.old.engines.items (λ other. HasNoMove self.old.now) }
        requires on_time { EachRun self.old.engines.items (λ other. HasNoneOverdue self.old.now) }
        requires up_to_date { EachRun self.old.engines.items (λ other. HasNoResend self.old.now) }
        requires next { IsLeastNext self.old.engines.items moment }
        ensures turned { Turned result (R.view rack.old) self.old looked (R.view rack.new) self.new }
        ensures between { result ≡ Ok None → IsBetweenTurns self.new (R.view rack.new) }
    {
        if moment > LAST_MOMENT {
            return Err(FleetError::Limit {
                what: LimitKind::Moment,
            });
        }
        match reach(rack, moment) {
            Ok(Some(now)) => {
                self.now = now;
                Ok(None)
            }
            Ok(None) => Ok(Some(FleetClose::Waiting { due: moment })),
            Err(error) => Err(FleetError::of(0, 0, error)),
        }
    }

    /// No parcel was there: what is due is done.
    pub(crate) fn go_on<R: Rack>(&mut self, rack: &mut R) -> Result<Option<FleetClose>, FleetError>
        requires between { IsBetweenTurns self.old (R.view rack.old) }
        requires some { 1 ≤ self.old.left }
        requires goes { SomeGoes self.old.engines.items }
        ensures turned { Turned result (R.view rack.old) self.old looked (R.view rack.new) self.new }
        ensures between { result ≡ Ok None → IsBetweenTurns self.new (R.view rack.new) }
    {
        accepted_is_runnable();
        match first_due(&self.engines, self.turn, self.now) {
            FleetDue::Move { place } => match self.make_move(rack, place) {
                Ok(()) => Ok(None),
                Err(error) => Err(error),
            },
            FleetDue::Expire { place } => match self.expire(rack, place) {
                Ok(()) => Ok(None),
                Err(error) => Err(error),
            },
            FleetDue::Resend {
                place,
                moment,
                issue,
            } => match self.resend(rack, place, moment, issue) {
                Ok(()) => Ok(None),
                Err(error) => Err(error),
            },
            FleetDue::Wait { moment } => self.wait_for(rack, moment),
            FleetDue::Ask { run: number, issue } => {
                Ok(Some(FleetClose::Asked { run: number, issue }))
            }
        }
    }
}
