//! OpenC2 commands and responses of the profile for stateless packet filtering, as JSON texts, both ways.
//!
//! `read_command` answers by six tests in their order (the table of refusals), `write_command` writes the least command with a
//! value, and so does `write_response`; what is written reads back.
#![tactic(auto)]

mod answers;
mod arguments;
mod command_writing;
mod commands;
mod directions;
mod drops;
mod laws;
mod messages;
mod reading;
mod reasons;
mod refusals;
mod response_reading;
mod response_writing;
mod responses;
mod values;

pub use answers::{Answer, ResponseError};
pub use command_writing::write_command;
pub use commands::Command;
pub use directions::Direction;
pub use drops::Drop3;
pub use laws::reads_back;
pub use oc2_msg_targets::{Feature, FeatureList};
pub use reading::read_command;
pub use reasons::Reason;
pub use refusals::{CommandError, Refusal};
pub use response_reading::read_response;
pub use response_writing::write_response;
pub use responses::Response;
