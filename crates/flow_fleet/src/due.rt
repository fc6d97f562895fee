// The order of a turn of a fleet whose take found no parcel.
ghost use Rattle.std.specs.Prelude.{◌≡◌, ◌↔◌, ◌<◌, ◌≤◌, length, None};
ghost use Rattle.flow_core_rules.specs.Moves.{asks, due};
ghost use Rattle.flow_fleet_steps.specs.Turns.{HasNoMove};
ghost use Rattle.flow_fleet_steps.specs.Worlds.{EachRun};
ghost use Rattle.flow_fleet.specs.Dues.{IsFleetDue};

use crate::searches::{first_asked, first_move, first_overdue, first_resend, least_next};
use flow_engine::Engine;

/// What a fleet does in a turn whose take found no parcel.
#[derive(Clone, Copy, Drop, PartialEq, Eq)]
pub enum FleetDue {
    /// The record of the move of the run at this place is appended, and the command that it sends is put.
    Move { place: u8 },
    /// The Expire of the least issue at its deadline of the run at this place is appended.
    Expire { place: u8 },
    /// The command of this issue of the run at this place is put again, since this moment, in milliseconds, has come.
    Resend { place: u8, moment: u64, issue: u32 },
    /// The clock is asked for this moment, in milliseconds.
    Wait { moment: u64 },
    /// The fleet closes as asked of this issue of the run with this number.
    Ask { run: u64, issue: u32 },
}

/// What is due at this moment in a turn whose take found no parcel: the first of these that applies. A move of the first place that has
/// one, around the circle from the turn on; an Expire of the first place with an issue at its deadline; the first resend, by place,
/// whose moment has come; the least moment that comes next of any run, which the clock is asked for; and, where nothing is due, the
/// least question of the first run that has one.
pub(crate) fn first_due(engines: &[Engine], turn: u8, now: u64) -> FleetDue
    requires few { length engines.now ≤ 16 }
    requires turn { turn < length engines.now }
    requires never_stuck { EachRun engines.now (λ place. HasNoMove now) → EachRun engines.now (λ place v. due v.history.seen ≡ None)
        → EachRun engines.now (λ place v. asks v.history.seen ≡ None) → ⊥ }
    ensures { (next : FleetDue) → (result ≡ next) ↔ IsFleetDue engines.now turn now next }
{
    if let Some(place) = first_move(engines, turn, now) {
        return FleetDue::Move { place };
    }
    if let Some(place) = first_overdue(engines, now) {
        return FleetDue::Expire { place };
    }
    if let Some((place, moment, issue)) = first_resend(engines, now) {
        return FleetDue::Resend {
            place,
            moment,
            issue,
        };
    }
    if let Some(moment) = least_next(engines) {
        return FleetDue::Wait { moment };
    }
    match first_asked(engines) {
        Some((number, issue)) => FleetDue::Ask { run: number, issue },
        None => unreachable!(),
    }
}
