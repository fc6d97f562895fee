// Laws of what is accepted. Each function does nothing; its contract is the law.
ghost use Rattle.flow_core_setup.specs.SetupLaws.{AcceptedIsRunnable, AcceptedAgain};

use cacao_check::sound_gives;
use cacao_text::canonical_law;

/// What is accepted can be run.
pub fn accepted_is_runnable()
    ensures { AcceptedIsRunnable }
{
    sound_gives();
}

/// What is accepted is accepted again by its canonical texts, and gives a run the same.
pub fn accepted_again()
    ensures { AcceptedAgain }
{
    canonical_law();
}
