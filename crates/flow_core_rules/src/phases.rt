// Where tasks stand.

/// Where a task stands on its way. Moments are in milliseconds.
#[derive(Clone, Copy, PartialEq, Eq)]
pub enum Phase {
    /// Before its step, from this moment on.
    At { since: u64 },
    /// Before the sending, or the asking, of this place of its step; places count from 0.
    Sending { place: u32 },
    /// Until the issue of this place is answered, told or expires.
    Awaiting { place: u32, issue: u32 },
    /// Until its children from this number on have ended.
    Joining { from: u32 },
    /// At its end.
    Ended { well: bool },
}
