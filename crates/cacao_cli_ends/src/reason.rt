// Why a file has no reading.
use std::fmt;

/// Why the bytes of a file have no reading.
#[derive(Clone, Copy)]
pub enum Reason {
    /// They are no JSON text of the profile (RFC 8259; at most 127 levels).
    NotJson,
    /// An object has two members of one name (RFC 7493, section 2.3): more colons outside strings than members.
    RepeatedName { colons: u32, members: u32 },
    /// The number of this index, counted from 0, is not whole or past the range of the profile.
    NotWhole { index: u32 },
    /// The line of this number, counted from 1, is no packet.
    Line { number: u32 },
}

impl fmt::Display for Reason {
    ghost use Rattle.std.specs.Prelude.{Some};
    ghost use Rattle.cacao_cli_ends.specs.Ends.{reason_text};

    ghost output = { λ reason. Some (reason_text reason) };

    fn fmt<W: fmt::Write>(&self, f: &mut fmt::Formatter<W>) -> fmt::Result {
        match self {
            Reason::NotJson => f.write_str("not json"),
            Reason::RepeatedName { colons, members } => {
                write!(f, "repeated name {colons} {members}")
            }
            Reason::NotWhole { index } => write!(f, "not whole {index}"),
            Reason::Line { number } => write!(f, "line {number}"),
        }
    }
}
