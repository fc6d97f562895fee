// What is sure of the answers to a command.
use oc2_msg::Refusal;

/// What is sure of the answers of filters to a command that they refuse whatever the values are (OpenC2 Language 1.0, section 3.2.1).
#[derive(Clone, Copy)]
pub(crate) enum Sure {
    /// The status and its text.
    Answer(Refusal),
    /// 400, since the target or the arguments are malformed.
    Malformed,
    /// 400 or 501.
    Refused,
}
