// Whether conditions hold where steps stand (CACAO 2.0, section 4.8).
ghost use Rattle.std.specs.Prelude.{◌≡◌, ◌<◌, Some, length};
ghost use Rattle.flow_core_rules.specs.Givens.{step_at};
ghost use Rattle.flow_core_values.specs.RunFacts.{IsWell};
ghost use Rattle.flow_core_values.specs.Sights.{lists_seen, scope_seen};
ghost use Rattle.flow_core_values.specs.Truths.{holds_in, condition_in};

use crate::run::{Run, Sight, Stand};
use cacao_cond::{Atom, Worths, truth};
use cacao_vars::Name;

// The names of a run as they are seen.
#[derive(Drop)]
struct Seen<'a> {
    run: &'a Run,
    sight: Sight<'a>,
}

impl<'a> Worths for Seen<'a> {
    ghost use Rattle.flow_core_rules.specs.Values.{worth_at};

    ghost worth = { λ seen name. worth_at (lists_seen seen.run.now seen.sight) (scope_seen seen.run.now seen.sight) name };

    ghost may_tell = { λ seen. IsWell seen.run.now × (seen.sight.scope < length seen.run.now.tables.opened.scopes) };

    fn worth(&self, name: &Name) -> Atom<'_> {
        self.run.worth(self.sight, name)
    }
}

impl Run {
    /// Whether the condition of the step holds where it is seen from; false where the step has none. It takes no memory.
    pub fn is_true(&self, stand: Stand<'_>, sight: Sight<'_>) -> bool
        requires well { IsWell self.now }
        requires scope { sight.scope < length self.now.tables.opened.scopes }
        requires stands { step_at self.now.setup stand.task.book stand.task.step ≡ Some stand.step.now }
        ensures { result ≡ holds_in (lists_seen self.now sight.entry) (scope_seen self.now sight.entry) (condition_in stand.entry.step.now.kind) }
    {
        let Some(cond) = self.setup.condition(stand.task.book, stand.task.step) else {
            return false;
        };
        let seen = Seen { run: self, sight };
        truth(cond, &seen)
    }
}
