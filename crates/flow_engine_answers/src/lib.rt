//! What operators answered: a text of lines, each of which tells how an issue of a run ended.
#![tactic(auto)]

mod answers;
mod told_line;

pub use answers::{AnswerError, Answers, OperatorAnswer, answers_law, read_answers};
