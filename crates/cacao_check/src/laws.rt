// Laws over the definitions that the contracts of this crate speak by. Each function does nothing; its contract is the law.
ghost use Rattle.cacao_check.specs.Laws.{SoundGives, SoundEnds, ResultsFit};

use base_decimals::decimal_law;

/// Books that break no rule keep each rule, of each book and of each step.
#[tactic(auto, using(crate::proofs::LawLemmas::sound_gives))]
pub fn sound_gives()
    ensures { SoundGives }
{}

/// Of books that break no rule: from each step a path can end, no step encloses itself, and no called book leads back.
#[tactic(auto, using(crate::proofs::LawLemmas::sound_ends))]
pub fn sound_ends()
    ensures { SoundEnds }
{}

/// What is written for the results of an action fits the kinds that may take them.
pub fn results_fit()
    ensures { ResultsFit }
{
    decimal_law();
}
