// Laws over the definitions that the contracts of this crate speak by. Each function does nothing; its contract is the law.
ghost use Rattle.cacao_check_regions.specs.Regions.{ScopesAgree};

/// What the scopes of a run see is what its steps may see.
#[tactic(auto, using(crate::proofs::SeenLemmas::scopes_agree))]
pub fn scopes_agree()
    ensures { ScopesAgree }
{}
