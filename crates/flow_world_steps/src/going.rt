// Laws of a session that goes on.

ghost use Rattle.flow_world_steps.specs.Spent.{EachEnds, EachSpends, StepSpends};
ghost use Rattle.flow_world_steps.specs.Stands.{EachAllPut, EachInTime, EachStands, EachUp};

use flow_engine::accepted_is_runnable;

/// What stands at each world of a session that goes on. The function does nothing; its contract is the law.
pub fn going_laws()
    ensures stands { EachStands }
    ensures up { EachUp }
    ensures all_put { EachAllPut }
    ensures in_time { EachInTime }
{}

/// Each step of a session uses something up, so each session ends. The function does nothing; its contract is the law.
pub fn spending_laws()
    ensures spends { StepSpends }
    ensures adds_up { EachSpends }
    ensures ends { EachEnds }
{
    accepted_is_runnable();
}
