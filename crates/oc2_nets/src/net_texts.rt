// The text of a net.
use std::marker::Model;

/// The text of a net, which contracts see as its bytes.
#[derive(Drop)]
pub struct NetText {
    text: String,
}

impl Model for NetText {
    ghost use Rattle.std.specs.Prelude.{ℕ, List};
    ghost use Rattle.std.specs.String.{string_bytes};

    ghost Value = { List ℕ };

    ghost view = { λ t. string_bytes t.text };
}

impl NetText {
    ghost use Rattle.std.specs.Prelude.{◌≡◌};
    ghost use Rattle.std.specs.String.{string_bytes};

    /// The text in this string. It takes no memory.
    pub fn from_string(text: String) -> NetText
        ensures { result ≡ string_bytes text }
    {
        NetText { text }
    }

    /// The text.
    pub fn text(&self) -> &str
        ensures { result.now ≡ self.now }
    {
        self.text.as_str()
    }

    /// The string of the text. It takes no memory.
    pub fn into_string(self) -> String
        ensures { string_bytes result ≡ self }
    {
        self.text
    }
}
