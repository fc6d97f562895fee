// What the damage of a filter's file settles.
ghost use Rattle.slpf_actuator_acts.specs.Laws.{NoActsWhereDamaged, OneDamage};

/// A file that is damaged holds no acts of a filter, and it is damaged at one place. The function does nothing; its
/// contract is the law.
pub fn damage_law()
    ensures no_acts { NoActsWhereDamaged }
    ensures one_damage { OneDamage }
{}
