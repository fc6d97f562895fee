// Laws over the definitions that the contracts of this crate speak by.
ghost use Rattle.cacao_cond.specs.Grammar.{SpellsAtMostOne};
ghost use Rattle.cacao_cond.specs.Parts.{parts_of, primes_of, constants_in, AreLists, SaysByParts};

/// A text spells at most one condition.
pub fn spells_at_most_one()
    ensures { SpellsAtMostOne }
{}

/// A condition is the list of its parts, each of these the list of its own, and the constants behind `IN` are a list; each
/// has one item or more. A condition holds, and names its variables, by these lists.
pub fn conditions_are_lists()
    ensures parts { AreLists parts_of }
    ensures primes { AreLists primes_of }
    ensures constants { AreLists constants_in }
    ensures says { SaysByParts }
{}
