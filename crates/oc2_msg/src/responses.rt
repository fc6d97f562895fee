// Responses.
use crate::reasons::Reason;
use oc2_msg_targets::FeatureList;

/// A response of a packet filter (OpenC2 Language 1.0, section 3.2).
#[derive(Drop)]
pub struct Response {
    /// A status code: 102, 200, 400, 401, 403, 404, 500, 501 or 503.
    pub status: u16,
    /// The number of the rule that was added, 0 for none.
    pub rule: u32,
    pub text: Reason,
    /// The features whose values are given.
    pub features: FeatureList,
}
