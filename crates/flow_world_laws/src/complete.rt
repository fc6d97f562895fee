// How far a session comes that nothing disturbs.
ghost use Rattle.flow_world_laws.specs.Complete.{NoneFindsAnother, UndisturbedCompletes};
ghost use Rattle.flow_world_laws.specs.Undamaged.{GoodIsUndamaged, NoneFindsDamage};

use flow_core::accepted_again;

/// Where all agrees no file is damaged; so a session that nothing disturbs comes to the end of its run, its budget, or a question
/// to an operator, unless a limit is passed, too many parcels change nothing, or memory is wanted. The function does nothing of its
/// own; its contract is the law.
pub fn complete_laws()
    ensures undamaged { GoodIsUndamaged }
    ensures no_damage { NoneFindsDamage }
    ensures no_other_run { NoneFindsAnother }
    ensures completes { UndisturbedCompletes }
{
    accepted_again();
}
