// Filters on a wire: the opening of their files, and a command that is handed on.
ghost use Rattle.std.specs.Prelude.{◌≡◌, ◌≤◌, false, IfErr, length};
ghost use Rattle.cacao_site.specs.Sound.{IsSound};
ghost use Rattle.run_records.specs.Ranges.{last_moment};
ghost use Rattle.flow_world_steps.specs.Sides.{FiltersReady};
ghost use Rattle.flow_world_steps.specs.Steps.{IsAddressed};
ghost use Rattle.flow_world_parts.specs.Errors.{MayRefuseAct};
ghost use Rattle.oc2_wire_site.specs.WireOf.{wire_of};
ghost use Rattle.oc2_wire.specs.FilterTurns.{AnsweredAs, Handed, MayRefuseOpening, Opened, act_error_of};
ghost use Rattle.oc2_wire.specs.Turns.{opening_error};

use crate::error::WireError;
use crate::reply_wire::ReplyWire;
use cacao_site::{Disk, Parcel, Site};
use flow_core::LimitKind;
use flow_world_parts::{Filters, WorldError};
use oc2_wire_link::Link;
use oc2_wire_site::{LinkState, WireSite};
use run_records::LAST_MOMENT;
use slpf_actuator::ActError;
use std::alloc::Global;

// What holds of each site holds of this one.
pub(crate) fn is_sound<D: Disk>(disk: &D)
    ensures { IsSound (D.view disk.now) }
{
    let _ = disk;
}

/// The refusal of a call that could not open a filter's file.
pub(crate) fn of_opening(error: WorldError) -> WireError
    requires { MayRefuseOpening error }
    ensures { result ≡ opening_error error }
{
    match error {
        WorldError::Disk => WireError::Disk,
        WorldError::Damaged { file, place } => WireError::Damaged { file, place },
        WorldError::Memory => WireError::Memory,
        WorldError::OtherRun { .. } => unreachable!(),
        WorldError::OtherBook { .. } => unreachable!(),
        WorldError::RunUsed { .. } => unreachable!(),
        WorldError::Limit { .. } => unreachable!(),
        WorldError::Say => unreachable!(),
    }
}

/// The refusal of a call one of whose filters refused a command.
fn of_act(error: ActError) -> WireError
    requires { MayRefuseAct error }
    ensures { result ≡ act_error_of error }
{
    match error {
        ActError::Disk => WireError::Disk,
        ActError::Full { .. } => WireError::Limit {
            what: LimitKind::Journal,
        },
        ActError::Memory => WireError::Memory,
        ActError::Damaged { .. } => unreachable!(),
        ActError::Broken => unreachable!(),
    }
}

/// Opens the files of agents 1 to 16.
pub(crate) fn open_filters<S: Site, K: Link>(
    alloc: Global,
    wire: &mut WireSite<S, K>,
) -> Result<Filters, WorldError>
    requires whole { (wire_of S.view K.view wire.old).lines.state ≡ LinkState.Whole }
    ensures { Opened result (wire_of S.view K.view wire.old) (wire_of S.view K.view wire.new) }
{
    let mut lent = ReplyWire::new(wire);
    let opened = Filters::open_on(alloc, &mut lent);
    let mut back = lent.into_wire();
    // (the wire is lent up to here, so that it is known which one comes back)
    let _ = &mut back;
    opened
}

/// Hands a command to its filter.
fn hand<S: Site, K: Link>(
    filters: &mut Filters,
    wire: &mut WireSite<S, K>,
    parcel: &Parcel,
    now: u64,
) -> Result<bool, ActError>
    requires filters { FiltersReady filters.old (wire_of S.view K.view wire.old).site }
    requires here { parcel.now.agent ≤ length filters.old }
    requires in_time { now ≤ last_moment }
    requires addressed { IsAddressed parcel.now }
    requires command { parcel.now.back ≡ false }
    requires whole { (wire_of S.view K.view wire.old).lines.state ≡ LinkState.Whole }
    ensures handed { Handed result parcel.now now (wire_of S.view K.view wire.old) (wire_of S.view K.view wire.new) filters.old filters.new }
    ensures may { IfErr result MayRefuseAct }
{
    let mut lent = ReplyWire::new(wire);
    let handed = filters.act(&mut lent, parcel, now);
    let mut back = lent.into_wire();
    let _ = &mut back;
    handed
}

/// Hands a command to its filter at the present moment; true exactly where it acted, false where it had acted on it before.
pub(crate) fn answer_command<S: Site, K: Link>(
    filters: &mut Filters,
    wire: &mut WireSite<S, K>,
    parcel: &Parcel,
) -> Result<bool, WireError>
    requires filters { FiltersReady filters.old (wire_of S.view K.view wire.old).site }
    requires here { parcel.now.agent ≤ length filters.old }
    requires addressed { IsAddressed parcel.now }
    requires command { parcel.now.back ≡ false }
    requires whole { (wire_of S.view K.view wire.old).lines.state ≡ LinkState.Whole }
    ensures { AnsweredAs result parcel.now (wire_of S.view K.view wire.old) (wire_of S.view K.view wire.new) filters.old filters.new }
{
    is_sound(wire);
    let now = wire.reach(0);
    if now > LAST_MOMENT {
        return Err(WireError::Limit {
            what: LimitKind::Moment,
        });
    }
    is_sound(wire);
    let handed = hand(filters, wire, parcel, now);
    is_sound(wire);
    match handed {
        Ok(acted) => Ok(acted),
        Err(error) => Err(of_act(error)),
    }
}
