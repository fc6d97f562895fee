// Calls of an engine, and their answers.
use flow_engine::EngineError;

/// A call of an engine, at a moment in milliseconds.
#[derive(Clone, Copy)]
pub enum Call<'a> {
    /// Appends the Begin, where there is no record yet.
    Start {
        moment: u64,
    },
    /// Appends the Begin, where there is no record yet, and the records of all moves, at most 100.
    Begin {
        moment: u64,
    },
    /// Appends the Upgrade, where the run has begun, goes on and is not upgraded.
    Upgrade {
        moment: u64,
    },
    /// Puts the command of an issue, where it waits for a filter.
    Put {
        moment: u64,
        issue: u32,
    },
    /// Hands over a reply to issue 0 that comes from a filter.
    Reply {
        moment: u64,
        agent: u8,
        run: u64,
        text: &'a str,
    },
    /// Appends the Expire of the least issue that is overdue.
    Expire {
        moment: u64,
    },
    /// Asks when which issue is put next.
    Next,
}

/// What a call of an engine answered.
#[derive(Clone, Copy)]
pub enum Answer {
    /// It was done.
    Done,
    /// There was nothing to do, or it can't be done at this moment.
    Nothing,
    /// The moment of the next put, in milliseconds, and its issue; none where no issue is put again.
    Next(Option<(u64, u32)>),
    Refused(EngineError),
}

impl Answer {
    /// Whether it is a refusal.
    pub fn is_refusal(self) -> bool {
        match self {
            Answer::Refused(_) => true,
            _ => false,
        }
    }
}
