// Commands that are taken from a wire.
ghost use Rattle.std.specs.Prelude.{◌≡◌, ◌≢◌, ◌↔◌, ◌+◌, ◌-◌, ◌≤◌, IsTrue};
ghost use Rattle.oc2_wire_site.specs.WireOf.{wire_of};
ghost use Rattle.oc2_wire.specs.Answering.{most_idle};
ghost use Rattle.oc2_wire.specs.FilterTurns.{IsAnswering, end_of};
ghost use Rattle.oc2_wire.specs.Turns.{TookAs};

use crate::error::WireError;
use crate::handing::is_sound;
use cacao_site::{Parcel, Site};
use oc2_wire_link::Link;
use oc2_wire_site::{LinkState, WireSite};

/// The least number of lines and commands that changed no filter's file which ends a call.
const MOST_IDLE: u64 = 1_000_000;

/// Whether the lines passed over since there were `first` of them, and the commands without a new act, are too many.
fn is_flooded(passed: u64, first: u64, repeated: u32) -> bool
    ensures { IsTrue result ↔ (most_idle ≤ passed - first + repeated) }
{
    passed.saturating_sub(first).saturating_add(repeated as u64) >= MOST_IDLE
}

/// How a call ends where no further command comes.
fn close(state: LinkState) -> Result<Option<Parcel>, WireError>
    requires broken { state ≢ LinkState.Whole }
    requires few { state ≢ LinkState.PassedOver }
    ensures { result ≡ end_of state }
{
    match state {
        LinkState::Ended => Ok(None),
        LinkState::TooLong => Err(WireError::TooLong),
        LinkState::Failed => Err(WireError::Link),
        LinkState::NoMemory => Err(WireError::Memory),
        LinkState::Whole => unreachable!(),
        LinkState::PassedOver => unreachable!(),
    }
}

/// Takes the next command; None at the end of input.
pub(crate) fn take_command<S: Site, K: Link>(
    wire: &mut WireSite<S, K>,
    first: u64,
    repeated: u32,
) -> Result<Option<Parcel>, WireError>
    requires { IsAnswering first (wire_of S.view K.view wire.old) }
    ensures { TookAs result first repeated (wire_of S.view K.view wire.old) (wire_of S.view K.view wire.new) }
{
    is_sound(wire);
    let taken = wire.take();
    if is_flooded(wire.passed(), first, repeated) {
        return Err(WireError::Flooded);
    }
    match taken {
        Ok(Some(parcel)) => Ok(Some(parcel)),
        Ok(None) => close(wire.state()),
        // (where memory is wanted at a link that had failed, that is told)
        Err(_) => close(wire.state()),
    }
}
