// The forms in which a record is told.

/// How a record is told.
#[derive(Clone, Copy)]
pub enum Form {
    /// By the line that its session said.
    Line,
    /// By an object of JSON, in its canonical text (RFC 8785) and on a line of its own.
    Object,
}
