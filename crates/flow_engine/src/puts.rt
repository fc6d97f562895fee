// How an issue was put.

/// The puts of an issue that waits since the opening of its engine.
#[derive(Clone, Copy, Drop, PartialEq, Eq)]
pub struct Puts {
    /// When it was put last, in milliseconds.
    pub last: u64,
    /// How often it was put; 9 where it was put more often.
    pub count: u32,
}
