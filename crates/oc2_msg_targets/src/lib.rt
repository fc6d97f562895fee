//! Actions and targets of OpenC2 commands of the profile for stateless packet filtering, and the parts of JSON trees
//! of which messages are made, both ways.
#![tactic(auto)]

mod actions;
mod building;
mod connections;
mod feature_lists;
mod features;
mod kinds;
mod parts;
mod target_writing;
mod targets;
mod values;

pub use actions::Action;
pub use building::{one_member, one_text, push_text, put, text_tree, unless_empty, whole_tree};
pub use features::{Feature, FeatureList};
pub use kinds::TargetKind;
pub use parts::{has_only, is_absent_or_object, optional_whole, single, str_of, whole_between};
pub use target_writing::{features_tree, flow_tree};
pub use targets::Target;
