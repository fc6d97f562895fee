// Directions of rules.
ghost use Rattle.std.specs.Prelude.{◌≡◌};
ghost use Rattle.oc2_msg.specs.Words.{direction_word, direction_named};

/// The direction of the packets that a rule speaks of (OpenC2 SLPF 1.0, section 2.1.3).
#[derive(Clone, Copy, PartialEq, Eq)]
pub enum Direction {
    Both,
    Ingress,
    Egress,
}

impl Direction {
    /// The direction of this name: `both`, `ingress` or `egress`.
    pub fn read(text: &str) -> Option<Direction>
        ensures { result ≡ direction_named text.now }
    {
        if text == "both" {
            Some(Direction::Both)
        } else if text == "ingress" {
            Some(Direction::Ingress)
        } else if text == "egress" {
            Some(Direction::Egress)
        } else {
            None
        }
    }

    /// The name of the direction.
    pub fn word(self) -> &'static str
        ensures { result.now ≡ direction_word self }
    {
        match self {
            Direction::Both => "both",
            Direction::Ingress => "ingress",
            Direction::Egress => "egress",
        }
    }
}
