// Laws of the ends of a session.
ghost use Rattle.flow_world.specs.Laws.{ClosesAreNoRefusals, ClosesAreOne, ClosesAreSteady, RefusalsAreSteady};

/// How a session stands in the end tells how it closes: no two closes hold of one world, and none where it refused. The function does
/// nothing; its contract is the law.
pub fn closes_law()
    ensures one { ClosesAreOne }
    ensures no_refusal { ClosesAreNoRefusals }
{}

/// A session that closed, and one that refused for another reason than a failure of the disk, had no call of the disk fail. The function
/// does nothing; its contract is the law.
pub fn steady_law()
    ensures closes { ClosesAreSteady }
    ensures refusals { RefusalsAreSteady }
{}
