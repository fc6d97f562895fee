//! What the program is asked to do, what its files and its work come to, and how a call of it ends: the definitions, and the type
//! of ends with the status and the last line of each, and how lines are said.
#![tactic(auto)]

mod end;
mod fault_line;
mod limit;
mod reason;
mod say;

pub use end::End;
pub use fault_line::FaultLine;
pub use limit::Limit;
pub use reason::Reason;
pub use say::{finish, say_all, say_then};
