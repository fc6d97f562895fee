// How lines are written.
ghost use Rattle.std.specs.Prelude.{◌≡◌, ◌↔◌, ◌≤◌, [], ◌∷◌, ◌++◌, IsTrue, IfOk, string_bytes};
ghost use Rattle.std.specs.Fmt.{decimal};
ghost use Rattle.oc2_wire_lines.specs.Lines.{IsCarried, letter, line_of, nothing_line, space};

use crate::reading::is_text;
use base_decimals::MOST_EXACT;
use cacao_site::{Bytes, Parcel};
use std::alloc::{AllocError, Global};

/// The most bytes of a line, with its line feed.
pub const MOST_LINE: usize = 1_048_610;

// Whether a number is from `least` to `most`.
fn is_between(n: u64, least: u64, most: u64) -> bool
    ensures { IsTrue result ↔ ((least ≤ n) × (n ≤ most)) }
{
    least <= n && n <= most
}

/// Whether a line can carry the parcel: its agent is 1 to 16, its run 1 to 9,007,199,254,740,991, its issue 0 to 4,294,967,295,
/// and its bytes are at most 1,048,576 without a line feed.
pub fn is_carried(parcel: &Parcel) -> bool
    ensures { IsTrue result ↔ IsCarried parcel.now }
{
    let agent = is_between(u64::from(parcel.agent), 1, 16);
    let run = is_between(parcel.run, 1, MOST_EXACT);
    let issue = is_between(u64::from(parcel.issue), 0, 4_294_967_295);
    if !(agent && run && issue) {
        return false;
    }
    is_text(parcel.bytes.as_slice())
}

// The letter and the numbers, each with a space behind it.
fn head(alloc: Global, parcel: &Parcel) -> Result<String, AllocError>
    ensures { IfOk result (λ head. string_bytes head ≡ letter parcel.now.back ∷ space ∷ (decimal parcel.now.agent
        ++ space ∷ (decimal parcel.now.run ++ space ∷ (decimal parcel.now.issue ++ space ∷ [])))) }
{
    let agent = parcel.agent;
    let run = parcel.run;
    let issue = parcel.issue;
    if parcel.back {
        format!(in alloc; "r {agent} {run} {issue} ")
    } else {
        format!(in alloc; "c {agent} {run} {issue} ")
    }
}

/// The line of a parcel, with its line feed. It reads back where a line can carry the parcel.
pub fn write_line(alloc: Global, parcel: &Parcel) -> Result<Bytes, AllocError>
    ensures { IfOk result (λ line. line ≡ line_of parcel.now) }
{
    let mut line = head(alloc, parcel)?.into_bytes();
    line.extend_from_slice(parcel.bytes.as_slice())?;
    line.push(b'\n')?;
    Ok(Bytes::from_vec(line))
}

/// The line `n`, with its line feed: a line that was read carried nothing.
pub fn nothing_line() -> &'static [u8]
    ensures { result.now ≡ nothing_line }
{
    b"n\n"
}
