// How a session stands where it ends.

ghost use Rattle.flow_world_laws.specs.Ends.{EachCountsShorts, EachEndsInTurn, EachInTurn, EachPassed, KeepsDiskOn, LacksOnly};

/// How a session stands where it ends, and in its turns. The function does nothing; its contract is the law.
pub fn ends_laws()
    ensures in_turn { EachInTurn }
    ensures closes { EachEndsInTurn }
    ensures lacks { LacksOnly }
    ensures shorts { EachCountsShorts }
    ensures disk { KeepsDiskOn }
    ensures passed { EachPassed }
{}
