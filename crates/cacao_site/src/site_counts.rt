// Counts that a site tells beside its disk, its link and its clock.
ghost use Rattle.std.specs.Prelude.{◌≡◌, ◌^◌, ◌<◌, if◌then◌else◌};
ghost use Rattle.cacao_site.specs.Counts.{next_count};
ghost use Rattle.cacao_site.specs.SiteCounts.{counts_view, no_counts};

/// The calls of `say` and the mishaps of parcels, each counted up to its last value.
#[derive(Clone, Copy, Drop)]
pub struct SiteCounts {
    /// The calls of `say`, those that failed too.
    pub says: u64,
    /// The calls of `say` that failed.
    pub unsaid: u64,
    /// The parcels lost, doubled or held back.
    pub mishaps: u64,
}

impl SiteCounts {
    /// Nothing counted yet.
    pub fn new() -> SiteCounts
        ensures { counts_view result ≡ no_counts }
    {
        SiteCounts {
            says: 0,
            unsaid: 0,
            mishaps: 0,
        }
    }

    /// Counts a call of `say`, and whether it failed.
    pub fn count_say(&mut self, failed: bool)
        ensures says { self.new.says ≡ next_count self.old.says }
        ensures unsaid { self.new.unsaid ≡ (if failed then next_count self.old.unsaid else self.old.unsaid) }
        ensures mishaps { self.new.mishaps ≡ self.old.mishaps }
        ensures says_fit { self.old.says < 2 ^ 64 }
        ensures unsaid_fit { self.old.unsaid < 2 ^ 64 }
    {
        let more = self.unsaid.saturating_add(1);
        self.says = self.says.saturating_add(1);
        if failed {
            self.unsaid = more;
        }
    }

    /// Counts a parcel that was put, where it was lost, doubled or held back.
    pub fn count_put(&mut self, mishap: bool)
        ensures mishaps { self.new.mishaps ≡ (if mishap then next_count self.old.mishaps else self.old.mishaps) }
        ensures says { self.new.says ≡ self.old.says }
        ensures unsaid { self.new.unsaid ≡ self.old.unsaid }
        ensures fits { self.old.mishaps < 2 ^ 64 }
    {
        let more = self.mishaps.saturating_add(1);
        if mishap {
            self.mishaps = more;
        }
    }
}
