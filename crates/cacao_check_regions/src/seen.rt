// What a step sees of a name.
use cacao_vars::Var;
use std::marker::Model;

/// A possible nearest declaration of a name, or that there may be none.
#[derive(Drop)]
pub enum Sight {
    Declared(Var),
    Missing,
}

/// What a step may see of a name, each thing once, in no stated order.
#[derive(Drop)]
pub struct Seen {
    items: Vec<Sight>,
}

impl Model for Seen {
    ghost use Rattle.std.specs.Prelude.{List};
    ghost use Rattle.cacao_check_regions.specs.declared.seen.Sight.{Sight};

    ghost Value = { List Sight };

    ghost view = { λ seen. seen.items.items };
}

impl Seen {
    ghost use Rattle.std.specs.Prelude.{◌≡◌};

    /// The list over these, which it keeps. It takes no memory.
    pub fn from_vec(items: Vec<Sight>) -> Seen
        ensures { result ≡ items.items }
    {
        Seen { items }
    }

    /// What is seen. It takes no memory.
    pub fn as_slice(&self) -> &[Sight]
        ensures { result.now ≡ self.now }
    {
        self.items.as_slice()
    }
}
