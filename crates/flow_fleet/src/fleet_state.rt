// A fleet between its calls.

use flow_engine::Engine;
use flow_world_parts::Filters;
use std::alloc::Global;

/// The engines and the filters of a fleet whose files are open, and what is left of its bounds.
pub struct Fleet {
    pub alloc: Global,
    /// Of the runs, by place.
    pub engines: Vec<Engine>,
    /// Of agents 1 to 16.
    pub filters: Filters,
    /// The present moment, in milliseconds.
    pub now: u64,
    /// How many records more may be appended, of all runs.
    pub left: u64,
    /// The place from which the next move is looked for.
    pub turn: u8,
    /// How many parcels changed no journal.
    pub ignored: u32,
}

// (by hand, and not by derive: so a drop is one call in the proofs of all who own one)
impl Drop for Fleet {
    fn drop(self) {
        let Self {
            alloc: _,
            engines: _,
            filters: _,
            now: _,
            left: _,
            turn: _,
            ignored: _,
        } = self;
    }
}
