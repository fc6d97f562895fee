// How a task stands.

/// How a task stands, as far as a picture tells.
#[derive(Clone, Copy)]
pub(crate) enum Way {
    /// It goes on.
    Stands,
    /// It ended failed.
    Failed,
    /// It ended well.
    Done,
}
