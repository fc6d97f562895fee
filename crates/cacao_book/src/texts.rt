// Lists of texts.
use cacao_json::Text;
use std::marker::Model;

/// Texts in order.
#[derive(Drop)]
pub struct Texts {
    items: Vec<Text>,
}

impl Model for Texts {
    ghost use Rattle.std.specs.Prelude.{List, ℕ};

    ghost Value = { List (List ℕ) };

    ghost view = { λ texts. texts.items.items };
}

impl Texts {
    ghost use Rattle.std.specs.Prelude.{◌≡◌};

    /// The list over these texts, which it keeps. It takes no memory.
    pub fn from_vec(items: Vec<Text>) -> Texts
        ensures { result ≡ items.items }
    {
        Texts { items }
    }

    /// Gives the texts back. It takes no memory.
    pub fn into_vec(self) -> Vec<Text>
        ensures { result.items ≡ self }
    {
        let Texts { items } = self;
        items
    }

    /// The texts in order. It takes no memory.
    pub fn as_slice(&self) -> &[Text]
        ensures { result.now ≡ self.now }
    {
        self.items.as_slice()
    }
}
