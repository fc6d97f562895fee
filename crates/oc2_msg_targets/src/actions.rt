// Actions of commands.
ghost use Rattle.std.specs.Prelude.{◌≡◌};
ghost use Rattle.oc2_msg_targets.specs.Words.{action_word, action_named, is_deny, adds_rule};

/// What a command asks for (OpenC2 Language 1.0, section 3.3.1): the actions of this profile.
#[derive(Clone, Copy, PartialEq, Eq)]
pub enum Action {
    Allow,
    Deny,
    Delete,
    Update,
    Query,
}

impl Action {
    /// The action of this name.
    pub fn read(text: &str) -> Option<Action>
        ensures { result ≡ action_named text.now }
    {
        if text == "allow" {
            Some(Action::Allow)
        } else if text == "deny" {
            Some(Action::Deny)
        } else if text == "delete" {
            Some(Action::Delete)
        } else if text == "update" {
            Some(Action::Update)
        } else if text == "query" {
            Some(Action::Query)
        } else {
            None
        }
    }

    /// The name of the action.
    pub fn word(self) -> &'static str
        ensures { result.now ≡ action_word self }
    {
        match self {
            Action::Allow => "allow",
            Action::Deny => "deny",
            Action::Delete => "delete",
            Action::Update => "update",
            Action::Query => "query",
        }
    }

    pub fn is_deny(self) -> bool
        ensures { result ≡ is_deny self }
    {
        self == Action::Deny
    }

    /// Whether it adds a rule.
    pub fn adds_rule(self) -> bool
        ensures { result ≡ adds_rule self }
    {
        self == Action::Allow || self == Action::Deny
    }
}
