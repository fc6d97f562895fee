// What is read of a step once.
use base_graphs::Places;
use cacao_cond::Cond;
use cacao_json::Tree;
use cacao_vars::Name;

/// What is read of a step once: its condition and the name of its switch, the trees of its commands' contents, the
/// places of the steps to which its links lead, those at which its branches begin, and the number of the book that it
/// calls. None where there is none, where a text is none, or where a link names no step.
pub struct Parts {
    pub condition: Option<Cond>,
    pub subject: Option<Name>,
    pub contents: Vec<Option<Tree>>,
    pub completion: Option<u32>,
    pub success: Option<u32>,
    pub failure: Option<u32>,
    pub heads: Places,
    pub called: Option<u32>,
}

// (by hand, and not by derive: so a drop is one call in the proofs of all who own one)
impl Drop for Parts {
    fn drop(self) {
        let Self {
            condition,
            subject: _,
            contents: _,
            completion: _,
            success: _,
            failure: _,
            heads: _,
            called: _,
        } = self;
        // (by its name, and not at the end: so it is one call here, too)
        drop(condition);
    }
}
