// What a fleet does with a parcel in hand.
ghost use Rattle.std.specs.Prelude.{◌≡◌, ◌+◌, ◌<◌, ◌≤◌, ℕ, true, false, None, Ok, OnOk};
ghost use Rattle.flow_world_steps.specs.Steps.{IsAddressed};
ghost use Rattle.flow_world_steps.specs.Worlds.{holds};
ghost use Rattle.flow_world_parts.specs.Errors.{MayRefuseAct, act_refusal};
ghost use Rattle.flow_fleet_steps.specs.Errors.{fleet_refusal};
ghost use Rattle.flow_fleet.specs.Leads.{Did, IsBetweenTurns, Turned};

use crate::fleet_state::Fleet;
use cacao_site::{Parcel, Rack};
use flow_core::LimitKind;
use flow_fleet_steps::{FleetClose, FleetError};
use flow_world_parts::turns::{MOST_IGNORED, is_addressed};
use slpf_actuator::ActError;

/// The refusal of a fleet one of whose filters refused a command.
fn of_filter(error: ActError) -> FleetError
    requires { MayRefuseAct error }
    ensures { result ≡ fleet_refusal 0 0 (act_refusal error) }
{
    match error {
        ActError::Disk => FleetError::Disk,
        ActError::Full { .. } => FleetError::Limit {
            what: LimitKind::Journal,
        },
        ActError::Memory => FleetError::Memory,
        ActError::Damaged { .. } => unreachable!(),
        ActError::Broken => unreachable!(),
    }
}

impl Fleet {
    /// A reply in hand goes to the engine of its run; it is dropped where no run takes it.
    fn hand_reply<R: Rack>(&mut self, rack: &mut R, parcel: &Parcel) -> Result<(), FleetError>
        requires between { IsBetweenTurns self.old (R.view rack.old) }
        requires some { 1 ≤ self.old.left }
        requires addressed { IsAddressed parcel.now }
        requires back { parcel.now.back ≡ true }
        ensures did { (beat : ℕ) → Did result (R.view rack.old) self.old (holds beat parcel.now) (R.view rack.new) self.new }
        ensures works { OnOk result (IsBetweenTurns (record self.new { ignored = 0 }) (R.view rack.new)) }
        ensures few { OnOk result (self.new.ignored ≤ self.old.ignored + 1) }
    {
        for place in 0..self.engines.len() as u8 {
            match self.reply(rack, place, parcel) {
                Ok(true) => return Ok(()),
                Ok(false) => {}
                Err(error) => return Err(error),
            }
        }
        self.ignored += 1;
        Ok(())
    }

    /// A command in hand goes to its filter.
    fn hand_command<R: Rack>(&mut self, rack: &mut R, parcel: &Parcel) -> Result<(), FleetError>
        requires between { IsBetweenTurns self.old (R.view rack.old) }
        requires some { 1 ≤ self.old.left }
        requires addressed { IsAddressed parcel.now }
        requires command { parcel.now.back ≡ false }
        ensures did { (beat : ℕ) → Did result (R.view rack.old) self.old (holds beat parcel.now) (R.view rack.new) self.new }
        ensures works { OnOk result (IsBetweenTurns (record self.new { ignored = 0 }) (R.view rack.new)) }
        ensures few { OnOk result (self.new.ignored ≤ self.old.ignored + 1) }
    {
        match self.filters.act(rack, parcel, self.now) {
            Ok(true) => Ok(()),
            Ok(false) => {
                self.ignored += 1;
                Ok(())
            }
            Err(error) => Err(of_filter(error)),
        }
    }

    /// A parcel in hand goes to an engine or to its filter, or is dropped.
    fn hand_on<R: Rack>(&mut self, rack: &mut R, parcel: &Parcel) -> Result<(), FleetError>
        requires between { IsBetweenTurns self.old (R.view rack.old) }
        requires some { 1 ≤ self.old.left }
        ensures did { (beat : ℕ) → Did result (R.view rack.old) self.old (holds beat parcel.now) (R.view rack.new) self.new }
        ensures works { OnOk result (IsBetweenTurns (record self.new { ignored = 0 }) (R.view rack.new)) }
        ensures few { OnOk result (self.new.ignored ≤ self.old.ignored + 1) }
    {
        if !is_addressed(parcel) {
            self.ignored += 1;
            return Ok(());
        }
        if parcel.back {
            return self.hand_reply(rack, parcel);
        }
        self.hand_command(rack, parcel)
    }

    /// Hands on a parcel that was taken; the fleet closes right behind the 1,000,000th that changed no journal.
    pub(crate) fn deliver<R: Rack>(
        &mut self,
        rack: &mut R,
        parcel: &Parcel,
    ) -> Result<Option<FleetClose>, FleetError>
        requires between { IsBetweenTurns self.old (R.view rack.old) }
        requires some { 1 ≤ self.old.left }
        ensures turned { (beat : ℕ) → Turned result (R.view rack.old) self.old (holds beat parcel.now) (R.view rack.new) self.new }
        ensures between { result ≡ Ok None → IsBetweenTurns self.new (R.view rack.new) }
    {
        match self.hand_on(rack, parcel) {
            Ok(()) => {
                if self.ignored >= MOST_IGNORED {
                    return Ok(Some(FleetClose::Flooded));
                }
                Ok(None)
            }
            Err(error) => Err(error),
        }
    }
}
