// What is sure of answers, as a law. The function does nothing; its contract is the law.
ghost use Rattle.cacao_view_preflight.specs.Laws.{AnswersAreSure, ConstantsAreSeen};

use cacao_json::profile_law;
use cacao_text::canonical_law;
use cacao_vars::references_go_on;

/// Whatever the values are of the variables that are not known, a filter answers a command as is said to be sure. Those that are known are
/// constants that the step sees, with the texts that they have in each run.
pub fn sure_answers_law()
    ensures sure { AnswersAreSure }
    ensures seen { ConstantsAreSeen }
{
    canonical_law();
    profile_law();
    references_go_on();
}
