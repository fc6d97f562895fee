//! The acts of a packet filter: what each replies, and which rules there are after them. The definitions stand in `specs/`;
//! here is what they come to from act to act.
#![tactic(auto)]

mod index;

ghost use Rattle.slpf_rules_acts.specs.Acts.{BeginWithNone, GoOnByOne};

pub use index::ActIndex;

/// A filter begins with no act; and one act more, on another run or issue, with the reply of the table, makes acts of acts.
pub fn acts_law()
    ensures none { BeginWithNone }
    ensures one_more { GoOnByOne }
{}
