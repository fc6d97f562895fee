// Kinds of targets.
ghost use Rattle.std.specs.Prelude.{◌≡◌};
ghost use Rattle.oc2_msg_targets.specs.Words.{kind_word, kind_named, is_flow, takes};

use crate::actions::Action;

/// The type of a target (OpenC2 Language 1.0, section 3.4.1; OpenC2 SLPF 1.0, section 2.1.2), by the name of the
/// target's one member.
#[derive(Clone, Copy, PartialEq, Eq)]
pub enum TargetKind {
    Ipv4Net,
    Ipv6Net,
    Ipv4Connection,
    Ipv6Connection,
    RuleNumber,
    File,
    Features,
}

impl TargetKind {
    /// The kind of this name.
    pub fn read(text: &str) -> Option<TargetKind>
        ensures { result ≡ kind_named text.now }
    {
        if text == "ipv4_net" {
            Some(TargetKind::Ipv4Net)
        } else if text == "ipv6_net" {
            Some(TargetKind::Ipv6Net)
        } else if text == "ipv4_connection" {
            Some(TargetKind::Ipv4Connection)
        } else if text == "ipv6_connection" {
            Some(TargetKind::Ipv6Connection)
        } else if text == "slpf:rule_number" {
            Some(TargetKind::RuleNumber)
        } else if text == "file" {
            Some(TargetKind::File)
        } else if text == "features" {
            Some(TargetKind::Features)
        } else {
            None
        }
    }

    /// The name of the kind.
    pub fn word(self) -> &'static str
        ensures { result.now ≡ kind_word self }
    {
        match self {
            TargetKind::Ipv4Net => "ipv4_net",
            TargetKind::Ipv6Net => "ipv6_net",
            TargetKind::Ipv4Connection => "ipv4_connection",
            TargetKind::Ipv6Connection => "ipv6_connection",
            TargetKind::RuleNumber => "slpf:rule_number",
            TargetKind::File => "file",
            TargetKind::Features => "features",
        }
    }

    /// Whether rules speak of it.
    fn is_flow(self) -> bool
        ensures { result ≡ is_flow self }
    {
        match self {
            TargetKind::Ipv4Net
            | TargetKind::Ipv6Net
            | TargetKind::Ipv4Connection
            | TargetKind::Ipv6Connection => true,
            TargetKind::RuleNumber | TargetKind::File | TargetKind::Features => false,
        }
    }

    /// Whether the action takes a target of this kind (OpenC2 SLPF 1.0, section 2.3).
    pub fn is_taken_by(self, action: Action) -> bool
        ensures { result ≡ takes action self }
    {
        match action {
            Action::Allow | Action::Deny => self.is_flow(),
            Action::Delete => self == TargetKind::RuleNumber,
            Action::Update => self == TargetKind::File,
            Action::Query => self == TargetKind::Features,
        }
    }
}
