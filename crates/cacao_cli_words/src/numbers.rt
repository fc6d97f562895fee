// Numbers among the words.
ghost use Rattle.std.specs.Prelude.{◌≤◌};

/// The number of an agent, 1 to 16.
#[derive(Clone, Copy, PartialEq, Eq)]
pub struct Agent {
    pub number: u8,
    pub ghost low: { 1 ≤ number },
    pub ghost high: { number ≤ 16 },
}

/// The positions of a rehearsal, 1 to 1,000.
#[derive(Clone, Copy, PartialEq, Eq)]
pub struct Positions {
    pub count: u32,
    pub ghost some: { 1 ≤ count },
    pub ghost few: { count ≤ 1_000 },
}

impl Agent {
    ghost use Rattle.std.specs.Prelude.{◌≡◌, ◌≤◌};

    pub fn new(number: u8) -> Agent
        requires low { 1 ≤ number }
        requires high { number ≤ 16 }
        ensures { result.number ≡ number }
    {
        Agent { number }
    }
}

impl Positions {
    ghost use Rattle.std.specs.Prelude.{◌≡◌, ◌≤◌};

    pub fn new(count: u32) -> Positions
        requires some { 1 ≤ count }
        requires few { count ≤ 1_000 }
        ensures { result.count ≡ count }
    {
        Positions { count }
    }
}
