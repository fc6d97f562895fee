// Commands.
use crate::directions::Direction;
use crate::drops::Drop3;
use cacao_json::Text;
use oc2_msg_targets::FeatureList;
use oc2_nets::Flow;

/// A command to a packet filter (OpenC2 SLPF 1.0, section 2.3).
#[derive(Drop)]
pub enum Command {
    /// Adds a rule (`allow`, `deny`). Times are milliseconds.
    Rule {
        deny: bool,
        flow: Flow,
        direction: Direction,
        /// `Silent` in a rule that allows.
        drop: Drop3,
        /// The number of the rule, at least 1.
        insert: Option<u32>,
        start: Option<u64>,
        stop: Option<u64>,
        duration: Option<u64>,
    },
    /// Takes a rule out (`delete`). The number is at least 1.
    Delete {
        number: u32,
    },
    /// Takes all rules out, if the file has the right name (`update`).
    Update {
        name: Text,
    },
    /// Asks for features (`query`), none of them twice.
    Query {
        features: FeatureList,
    },
}
