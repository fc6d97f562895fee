// Bytes that are received until a line stands among them.
ghost use Rattle.std.specs.Prelude.{◌≡◌, ◌+◌, ◌<◌, ◌≤◌, ◌++◌, length, take, vec_len, vec_capacity, IfOk, IfErr, OnOk, MatchOption};
ghost use Rattle.oc2_wire_lines.specs.Lines.{IsOneLine, most_line};
ghost use Rattle.oc2_wire_site.specs.LineSteps.{Fills, HasNoLineYet, IsFirstLine, IsStop};

use crate::link_state::LinkState;
use oc2_wire_lines::{MOST_LINE, first_line};
use oc2_wire_link::Link;

// The most bytes that one call receives.
const BLOCK: usize = 4_096;

// Adds the bytes, for which there is room.
fn extend_in_room(bytes: &mut Vec<u8>, more: &[u8])
    requires { vec_len bytes.old + length more.now ≤ vec_capacity bytes.old }
    ensures { bytes.new.items ≡ bytes.old.items ++ more.now }
{
    match bytes.extend_from_slice(more) {
        Ok(()) => {}
        Err(_) => unreachable!(),
    }
}

// Receives some bytes, which then stand behind those that are unread. They are together no more than one byte more than a
// line may have.
fn receive_more<K: Link>(link: &mut K, unread: &mut Vec<u8>) -> Result<(), LinkState>
    requires one_line { IsOneLine unread.old.items }
    requires short { length unread.old.items ≤ most_line }
    ensures fills { Fills (K.view link.old) (K.view link.new) unread.old.items unread.new.items }
    ensures more { OnOk result (length unread.old.items < length unread.new.items) }
    ensures small { length unread.new.items ≤ most_line + 1 }
    ensures faultless { OnOk result ((K.view link.new).faults ≡ (K.view link.old).faults) }
    ensures stop { IfErr result (λ state. IsStop state (K.view link.old).faults (K.view link.new) unread.new.items) }
{
    let most = (MOST_LINE + 1 - unread.len()).min(BLOCK);
    if unread.reserve(most).is_err() {
        return Err(LinkState::NoMemory);
    }
    let mut block = [0u8; BLOCK];
    let into = &mut block[..most];
    let Ok(count) = link.receive(into) else {
        return Err(LinkState::Failed);
    };
    if count == 0 {
        return Err(LinkState::Ended);
    }
    extend_in_room(unread, &into[..count as usize]);
    Ok(())
}

// Where the first line ends, of bytes of which the front, so many, is known to have no line feed.
fn line_end(unread: &[u8], seen: usize) -> Option<usize>
    requires seen { seen ≤ length unread.now }
    requires none { IsOneLine (take seen unread.now) }
    ensures { MatchOption result (IsOneLine unread.now) (λ end. IsFirstLine end unread.now) }
{
    let Some((front, _)) = first_line(&unread[seen..]) else {
        return None;
    };
    Some(seen + front.len())
}

// Answers where the first line ends. Where none does yet, it receives more, and answers None.
fn find_or_receive<K: Link>(
    link: &mut K,
    unread: &mut Vec<u8>,
    seen: usize,
) -> Result<Option<usize>, LinkState>
    requires seen { seen ≤ length unread.old.items }
    requires none { IsOneLine (take seen unread.old.items) }
    requires small { length unread.old.items ≤ most_line + 1 }
    ensures fills { Fills (K.view link.old) (K.view link.new) unread.old.items unread.new.items }
    ensures small { length unread.new.items ≤ most_line + 1 }
    ensures found { IfOk result (λ found. MatchOption found (HasNoLineYet unread.old.items unread.new.items)
        (λ end. IsFirstLine end unread.new.items × (end < most_line))) }
    ensures faultless { OnOk result ((K.view link.new).faults ≡ (K.view link.old).faults) }
    ensures stop { IfErr result (λ state. IsStop state (K.view link.old).faults (K.view link.new) unread.new.items) }
{
    if let Some(end) = line_end(unread.as_slice(), seen) {
        if end >= MOST_LINE {
            return Err(LinkState::TooLong);
        }
        return Ok(Some(end));
    }
    if unread.len() > MOST_LINE {
        return Err(LinkState::TooLong);
    }
    match receive_more(link, unread) {
        Ok(()) => Ok(None),
        Err(state) => Err(state),
    }
}

/// Receives until a line stands first among the unread bytes, and answers how long it is without its line feed. Where none
/// comes, it answers what broke the link.
pub(crate) fn await_line<K: Link>(link: &mut K, unread: &mut Vec<u8>) -> Result<usize, LinkState>
    requires small { length unread.old.items ≤ most_line + 1 }
    ensures small { length unread.new.items ≤ most_line + 1 }
    ensures fills { Fills (K.view link.old) (K.view link.new) unread.old.items unread.new.items }
    ensures line { IfOk result (λ end. IsFirstLine end unread.new.items × (end < most_line)) }
    ensures faultless { OnOk result ((K.view link.new).faults ≡ (K.view link.old).faults) }
    ensures stop { IfErr result (λ state. IsStop state (K.view link.old).faults (K.view link.new) unread.new.items) }
{
    let mut seen = 0usize;
    loop {
        let count = unread.len();
        match find_or_receive(link, unread, seen) {
            Ok(Some(end)) => return Ok(end),
            Ok(None) => seen = count,
            Err(state) => return Err(state),
        }
    }
}
