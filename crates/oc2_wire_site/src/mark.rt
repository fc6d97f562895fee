// A moment of a wire. What is remembered of a link takes no memory.
use crate::line_link::LineLink;
use oc2_wire_link::Link;
use std::snapshot::Snapshot;

/// What a wire was when it was made, or was marked last.
#[derive(Drop)]
pub struct Mark<K: Link> {
    pub lines: Snapshot<LineLink<K>>,
    /// How many parcels had been taken.
    pub taken: usize,
    /// How many parcels had been put.
    pub puts: usize,
}
