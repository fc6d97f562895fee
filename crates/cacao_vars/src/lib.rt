//! Variables of CACAO playbooks: names, references in texts, declarations, and scopes with what was written.
#![tactic(auto)]

mod declarations;
mod kinds;
mod laws;
mod name_lists;
mod references;
mod scoping;
mod variable_names;
mod words;

pub use declarations::{Var, Vars};
pub use kinds::Kind;
pub use laws::{references_go_on, scopes_open, writes_one_value};
pub use name_lists::Names;
pub use references::{Reference, find_reference, leading_reference, whole_reference};
pub use scoping::{Scope, ScopeError, Scopes, Write, home_of};
pub use variable_names::Name;
pub use words::Word;
