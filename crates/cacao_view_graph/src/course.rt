// The course of a run.
use crate::spot::Spot;

/// The steps that a run walked, one for each time, and for each issue the step from which it was sent, in order.
#[derive(Drop)]
pub(crate) struct Course {
    pub walked: Vec<Spot>,
    pub sent: Vec<Spot>,
}
