//! What the engine's end of a wire keeps over all that happens in a session of its own, for any parcels that it gets. The
//! definitions stand in `specs/`.
#![tactic(auto)]

ghost use Rattle.oc2_wire_steps.specs.Kept.{BeginsKept, OpeningIsKept, StepsKeepEngine};

use oc2_wire_laws::engine_laws;

/// A session without filters keeps what the engine's end of a wire promises, at each beat, whatever it takes; so does the opening of
/// its journal, from a start of that end on, whether it opens or refuses. The function does nothing; its contract is the law.
pub fn engine_law()
    ensures steps { StepsKeepEngine }
    ensures opening { OpeningIsKept }
    ensures begins { BeginsKept }
{
    engine_laws();
}
