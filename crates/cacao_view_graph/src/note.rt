// What is noted at a step.
use crate::spot::Spot;
use cacao_site::Bytes;

/// Lines that are noted at a step, each with its line feed.
#[derive(Drop)]
pub struct Note {
    pub spot: Spot,
    pub text: Bytes,
}
