// Texts of answers.

/// The text of a refusal or of a response: one variant for each, and one for none.
#[derive(Clone, Copy, Debug, PartialEq, Eq)]
pub enum Reason {
    /// The empty text.
    Empty,
    MalformedCommand,
    UnsupportedAction,
    UnsupportedPair,
    MalformedTarget,
    MalformedArgs,
    UnsupportedArgs,
    RuleNumberHeld,
    TableFull,
    NoNumberLeft,
    RuleNotHeld,
    UnknownFile,
}

impl Reason {
    ghost use Rattle.std.specs.Prelude.{◌≡◌};
    ghost use Rattle.oc2_msg.specs.Reasons.{reason_text};

    /// The text, in lower case, with no full stop. It takes no memory.
    pub fn text(&self) -> &'static str
        ensures { result.now ≡ reason_text self.now }
    {
        match self {
            Reason::Empty => "",
            Reason::MalformedCommand => "malformed command",
            Reason::UnsupportedAction => "unsupported action",
            Reason::UnsupportedPair => "unsupported pair",
            Reason::MalformedTarget => "malformed target",
            Reason::MalformedArgs => "malformed args",
            Reason::UnsupportedArgs => "unsupported args",
            Reason::RuleNumberHeld => "rule number held",
            Reason::TableFull => "table full",
            Reason::NoNumberLeft => "no number left",
            Reason::RuleNotHeld => "rule not held",
            Reason::UnknownFile => "unknown file",
        }
    }
}
