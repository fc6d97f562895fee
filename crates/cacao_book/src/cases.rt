// Cases of a switch.
use cacao_json::Text;
use std::marker::Model;

/// A case of a switch: the value that chooses it, and the key of the step to which it leads.
#[derive(Drop)]
pub struct Case {
    pub value: Text,
    pub step: Text,
}

/// Cases in order. Those of a playbook that was read stand in the order of the bytes of their values, each once.
#[derive(Drop)]
pub struct Cases {
    items: Vec<Case>,
}

impl Model for Cases {
    ghost use Rattle.std.specs.Prelude.{List};
    ghost use Rattle.cacao_book.specs.declared.cases.Case.{Case};

    ghost Value = { List Case };

    ghost view = { λ cases. cases.items.items };
}

impl Cases {
    ghost use Rattle.std.specs.Prelude.{◌≡◌};

    /// The list over these cases, which it keeps. It takes no memory.
    pub fn from_vec(items: Vec<Case>) -> Cases
        ensures { result ≡ items.items }
    {
        Cases { items }
    }

    /// Gives the cases back. It takes no memory.
    pub fn into_vec(self) -> Vec<Case>
        ensures { result.items ≡ self }
    {
        let Cases { items } = self;
        items
    }

    /// The cases in order. It takes no memory.
    pub fn as_slice(&self) -> &[Case]
        ensures { result.now ≡ self.now }
    {
        self.items.as_slice()
    }
}
