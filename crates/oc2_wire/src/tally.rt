// The counts of a call of the filters' end.
ghost use Rattle.std.specs.Prelude.{◌≡◌, ◌<◌};
ghost use Rattle.oc2_wire.specs.FilterTurns.{counted};

/// How many commands were acted on, and how many were answered from an earlier act.
#[derive(Clone, Copy, Drop)]
pub(crate) struct Tally {
    pub acted: u32,
    pub repeated: u32,
}

impl Tally {
    /// One command more.
    pub(crate) fn count(&mut self, acted: bool)
        requires acted { self.old.acted < 4_294_967_295 }
        requires repeated { self.old.repeated < 4_294_967_295 }
        ensures { self.new ≡ counted acted self.old }
    {
        if acted {
            self.acted += 1;
        } else {
            self.repeated += 1;
        }
    }
}
