// Lists of steps.
use crate::steps::Step;
use std::marker::Model;

/// At most 4,096 steps of different keys, in the order of the bytes of their keys, each within the limits of its
/// lists and its condition. Only `read_book` makes one.
pub struct Steps {
    items: Vec<Step>,
}

// (by hand, and not by derive: so a drop is one call in the proofs of all who own one)
impl Drop for Steps {
    fn drop(self) {
        let Self { items: _ } = self;
    }
}

impl Model for Steps {
    ghost use Rattle.std.specs.Prelude.{List};
    ghost use Rattle.cacao_book.specs.declared.steps.Step.{Step};

    ghost Value = { List Step };

    ghost use Rattle.cacao_book.specs.Steps.{AreSteps};

    ghost view = { λ steps. steps.items.items };

    ghost invariant = { λ steps. AreSteps steps.items.items };
}

impl Steps {
    ghost use Rattle.std.specs.Prelude.{◌≡◌, ◌≤◌, All, length};
    ghost use Rattle.cacao_book.specs.Steps.{AreSteps, IsInKeyOrder, KeepsLimits};

    // The list over these steps.
    pub(crate) fn from_vec(items: Vec<Step>) -> Steps
        requires { AreSteps items.items }
        ensures { result ≡ items.items }
    {
        Steps { items }
    }

    /// The steps in the order of their keys. It takes no memory.
    pub fn as_slice(&self) -> &[Step]
        ensures steps { result.now ≡ self.now }
        ensures few { length self.now ≤ 4096 }
        ensures order { IsInKeyOrder self.now }
        ensures limits { All KeepsLimits self.now }
    {
        self.items.as_slice()
    }
}
