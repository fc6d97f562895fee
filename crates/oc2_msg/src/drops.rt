// How a denied packet is dropped.
ghost use Rattle.std.specs.Prelude.{◌≡◌};
ghost use Rattle.oc2_msg.specs.Words.{drop_word, drop_named};

/// What the sender of a packet that is denied hears (OpenC2 SLPF 1.0, section 2.1.3, `drop_process`).
#[derive(Clone, Copy, PartialEq, Eq)]
pub enum Drop3 {
    /// Nothing (`none`).
    Silent,
    /// That the packet was refused (`reject`).
    Reject,
    /// That the packet came through (`false_ack`).
    FalseAck,
}

impl Drop3 {
    /// The value of this name: `none`, `reject` or `false_ack`.
    pub fn read(text: &str) -> Option<Drop3>
        ensures { result ≡ drop_named text.now }
    {
        if text == "none" {
            Some(Drop3::Silent)
        } else if text == "reject" {
            Some(Drop3::Reject)
        } else if text == "false_ack" {
            Some(Drop3::FalseAck)
        } else {
            None
        }
    }

    /// The name of the value.
    pub fn word(self) -> &'static str
        ensures { result.now ≡ drop_word self }
    {
        match self {
            Drop3::Silent => "none",
            Drop3::Reject => "reject",
            Drop3::FalseAck => "false_ack",
        }
    }
}
