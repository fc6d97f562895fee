// What the bytes of the journal tell where a session closed.
ghost use Rattle.flow_world_laws.specs.Returned.{EachClosesOnRun, ReadsAsOneRun};

/// How a session closed, by the bytes that its journal's file reads as on return. The function does nothing; its contract is the
/// law.
pub fn returned_laws()
    ensures closes_on_run { EachClosesOnRun }
    ensures one_run { ReadsAsOneRun }
{}
