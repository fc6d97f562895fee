// Whether all that stands before a place of a text is good, and the text does not go on there.
ghost use Rattle.std.specs.Prelude.{◌≡◌, ◌⊎◌, ◌≤◌, ◌<◌, ◌++◌, All, false, IfOk, IsTrue, OnOk, length, map, reverse};
ghost use Rattle.std.specs.List.{list_all};
ghost use Rattle.cacao_view_faults.specs.Closing.{IsDead, closers_with, closes_with, closing, is_begun, standing_behind, standing_with, string_closing};
ghost use Rattle.cacao_view_faults.specs.Kinds.{IsBegun, IsFaultAt, IsOfNoKind, Stops, is_of_string, is_of_word, is_piece, is_string_piece, is_word_piece};
ghost use Rattle.cacao_view_faults.specs.StandingBy.{standing_by};

use crate::faults::Fault;
use crate::first_fault::fault_in;
use crate::kinds::{kind_at, plain_words};
use crate::scan::{byte_at, is_of_word, string_end, word_end};
use crate::standing::is_json;
use std::alloc::{AllocError, Global};

/// Where some bytes end: whether in a string, whether behind a backslash in it, and what closes the brackets that are open.
#[derive(Drop)]
struct Standing {
    in_string: bool,
    escaped: bool,
    closers: Vec<u8>,
}

/// What closes the brackets, behind one more byte that stands in no string.
fn bracket(closers: &mut Vec<u8>, byte: u8) -> Result<(), AllocError>
    ensures { OnOk result (closers.new.items ≡ closers_with closers.old.items byte) }
{
    if byte == b'{' {
        closers.push(b'}')?;
        return Ok(());
    }
    if byte == b'[' {
        closers.push(b']')?;
        return Ok(());
    }
    if byte == b'}' || byte == b']' {
        let _ = closers.pop();
        return Ok(());
    }
    Ok(())
}

impl Standing {
    /// One byte more.
    fn take(&mut self, byte: u8) -> Result<(), AllocError>
        ensures { OnOk result (standing_by self.new ≡ standing_with (standing_by self.old) byte) }
    {
        if self.in_string {
            self.in_string = self.escaped || byte != b'"';
            self.escaped = !self.escaped && byte == b'\\';
            return Ok(());
        }
        bracket(&mut self.closers, byte)?;
        self.in_string = byte == b'"';
        self.escaped = false;
        Ok(())
    }

    /// What closes the string, if one is open.
    fn string_closing(&self) -> &'static [u8]
        ensures { result.now ≡ string_closing self.now.in_string self.now.escaped }
    {
        if self.escaped {
            return b"n\"";
        }
        if self.in_string {
            return b"\"";
        }
        b""
    }

    /// What closes the brackets, the last one first.
    fn brackets(&self, alloc: Global) -> Result<Vec<u8>, AllocError>
        ensures { IfOk result (λ made. made.items ≡ reverse self.now.closers.items) }
    {
        let mut made = Vec::from_slice(alloc, self.closers.as_slice())?;
        made.reverse();
        Ok(made)
    }

    /// What closes the string and the brackets, with other bytes between.
    fn closing(&self, alloc: Global, middle: &[u8]) -> Result<Vec<u8>, AllocError>
        ensures { IfOk result (λ made. made.items ≡ closing (standing_by self.now) middle.now) }
    {
        let brackets = self.brackets(alloc)?;
        let mut more = Vec::from_slice(alloc, self.string_closing())?;
        more.extend_from_slice(middle)?;
        more.extend_from_slice(brackets.as_slice())?;
        Ok(more)
    }
}

/// Where these bytes end.
fn standing_behind(alloc: Global, bytes: &[u8]) -> Result<Standing, AllocError>
    ensures { IfOk result (λ standing. standing_by standing ≡ standing_behind bytes.now) }
{
    let mut standing = Standing {
        in_string: false,
        escaped: false,
        closers: Vec::new(alloc),
    };
    for n in 0..bytes.len() {
        standing.take(bytes[n])?;
    }
    Ok(standing)
}

/// The bytes, with others behind them.
fn joined(alloc: Global, front: &[u8], more: &[u8]) -> Result<Vec<u8>, AllocError>
    ensures { IfOk result (λ made. made.items ≡ front.now ++ more.now) }
{
    let mut made = Vec::from_slice(alloc, front)?;
    made.extend_from_slice(more)?;
    Ok(made)
}

/// Whether the bytes are JSON text where what closes them stands behind them, with these bytes between.
fn closes_with(
    alloc: Global,
    front: &[u8],
    standing: &Standing,
    middle: &[u8],
) -> Result<bool, AllocError>
    requires { standing_by standing.now ≡ standing_behind front.now }
    ensures { IfOk result (λ yes. yes ≡ closes_with front.now middle.now) }
{
    let more = standing.closing(alloc, middle)?;
    let made = joined(alloc, front, more.as_slice())?;
    is_json(alloc, made.as_slice())
}

/// Whether the bytes are found to begin a JSON text.
fn is_begun(alloc: Global, front: &[u8]) -> Result<bool, AllocError>
    ensures { IfOk result (λ yes. yes ≡ is_begun front.now) }
{
    let standing = standing_behind(alloc, front)?;
    if closes_with(alloc, front, &standing, b"")? {
        return Ok(true);
    }
    if closes_with(alloc, front, &standing, b"0")? {
        return Ok(true);
    }
    if closes_with(alloc, front, &standing, b":0")? {
        return Ok(true);
    }
    closes_with(alloc, front, &standing, b"\"\":0")
}

/// What may be left of a word, of an escape of a character, or of that of its second half.
const RESTS: &[&[u8]] = &[
    b"",
    b"e",
    b"ue",
    b"rue",
    b"se",
    b"lse",
    b"alse",
    b"l",
    b"ll",
    b"ull",
    b"0",
    b"00",
    b"000",
    b"0000",
    b"C00",
    b"DC00",
    b"uDC00",
    b"\\uDC00",
    b"0\\uDC00",
    b"00\\uDC00",
];

/// Whether the bytes are found to begin a JSON text where this stands behind them.
fn is_begun_with(alloc: Global, bytes: &[u8], rest: &[u8]) -> Result<bool, AllocError>
    ensures { IfOk result (λ yes. yes ≡ is_begun (bytes.now ++ rest.now)) }
{
    let whole = joined(alloc, bytes, rest)?;
    is_begun(alloc, whole.as_slice())
}

/// Whether the bytes are found to begin a JSON text where one of these stands behind them.
fn is_begun_with_any(alloc: Global, bytes: &[u8], rests: &[&[u8]]) -> Result<bool, AllocError>
    ensures begun { IfOk result (λ yes. IsTrue yes → IsBegun bytes.now (length bytes.now)) }
    ensures dead { IfOk result (λ yes. yes ≡ false → All (λ rest. is_begun (bytes.now ++ rest) ≡ false) (map (λ rest. rest.now) rests.now)) }
{
    for n in 0..rests.len() {
        if is_begun_with(alloc, bytes, rests[n])? {
            return Ok(true);
        }
    }
    Ok(false)
}

/// Whether the bytes are found to begin a JSON text where what may be left of a word, a number or an escape stands behind them.
fn is_cut(alloc: Global, bytes: &[u8]) -> Result<bool, AllocError>
    ensures begun { IfOk result (λ yes. IsTrue yes → IsBegun bytes.now (length bytes.now)) }
    ensures dead { IfOk result (λ yes. yes ≡ false → IsDead bytes.now) }
{
    let yes = is_begun_with_any(alloc, bytes, RESTS)?;
    Ok(yes)
}

/// Whether the byte is one of a word or a number.
fn are_of_word(bytes: &[u8]) -> bool
    ensures { result ≡ list_all is_of_word bytes.now }
{
    bytes.iter().all(|byte| is_of_word(*byte))
}

/// Whether the bytes are those of a string, from its quotation mark on.
fn is_of_string(alloc: Global, bytes: &[u8]) -> Result<bool, AllocError>
    ensures { IfOk result (λ yes. yes ≡ is_of_string bytes.now) }
{
    let front = standing_behind(alloc, &bytes[..bytes.len().saturating_sub(1)])?;
    Ok(byte_at(bytes, 0) == b'"' && front.in_string)
}

/// Whether these are those of a whole word and one behind it, or one that is of no word; the word may end with the text.
fn is_word_piece(bytes: &[u8], ends: bool) -> bool
    ensures { result ≡ is_word_piece bytes.now ends }
{
    let last = bytes.len().saturating_sub(1);
    if !are_of_word(&bytes[..last]) {
        return false;
    }
    ends || !is_of_word(byte_at(bytes, last))
}

/// Whether these are those of a whole string; it may end with the text.
fn is_string_piece(alloc: Global, bytes: &[u8], ends: bool) -> Result<bool, AllocError>
    ensures { IfOk result (λ yes. yes ≡ is_string_piece bytes.now ends) }
{
    if !is_of_string(alloc, bytes)? {
        return Ok(false);
    }
    let standing = standing_behind(alloc, bytes)?;
    Ok(ends || !standing.in_string)
}

/// Whether these are a whole word and the byte behind it, a whole string, or one other byte.
fn is_piece(alloc: Global, bytes: &[u8], ends: bool) -> Result<bool, AllocError>
    ensures { IfOk result (λ yes. yes ≡ is_piece bytes.now ends) }
{
    if is_word_piece(bytes, ends) {
        return Ok(true);
    }
    is_string_piece(alloc, bytes, ends)
}

/// Whether a place is not the end of the text, or the text is not begun with what may be left of its last word, number or escape either.
fn is_uncut(alloc: Global, bytes: &[u8], end: usize) -> Result<bool, AllocError>
    ensures { IfOk result (λ yes. IsTrue yes → end ≡ length bytes.now → IsDead bytes.now) }
{
    if end != bytes.len() {
        return Ok(true);
    }
    if is_cut(alloc, bytes)? {
        return Ok(false);
    }
    Ok(true)
}

/// Whether the text is not begun any longer with what stands from one place on and before another.
fn stops_before(alloc: Global, bytes: &[u8], at: usize, end: usize) -> Result<bool, AllocError>
    ensures { IfOk result (λ yes. IsTrue yes → Stops bytes.now at) }
{
    if at >= end || end > bytes.len() {
        return Ok(false);
    }
    if !is_piece(alloc, &bytes[at..end], end == bytes.len())? {
        return Ok(false);
    }
    if is_begun(alloc, &bytes[..end])? {
        return Ok(false);
    }
    let yes = is_uncut(alloc, bytes, end)?;
    Ok(yes)
}

/// The place behind the string, or the word and the byte behind it, that begins at a place.
fn piece_end(bytes: &[u8], at: usize) -> usize {
    let next = at.saturating_add(1);
    if byte_at(bytes, at) == b'"' {
        string_end(bytes, next)
    } else {
        word_end(bytes, at).saturating_add(1).min(bytes.len())
    }
}

/// Whether the text ends at a place, or does not go on there.
fn stops(alloc: Global, bytes: &[u8], at: usize) -> Result<bool, AllocError>
    ensures { IfOk result (λ yes. IsTrue yes → (at ≡ length bytes.now) ⊎ Stops bytes.now at) }
{
    if at == bytes.len() {
        return Ok(true);
    }
    stops_before(alloc, bytes, at, piece_end(bytes, at))
}

/// Whether all before a place is good; at the end of the text, but for what may be left of its last word, number or escape.
fn is_good(alloc: Global, bytes: &[u8], at: usize) -> Result<bool, AllocError>
    requires { at ≤ length bytes.now }
    ensures { IfOk result (λ yes. IsTrue yes → IsBegun bytes.now at) }
{
    if at == bytes.len() {
        return is_cut(alloc, bytes);
    }
    is_begun_before(alloc, bytes, at)
}

/// Whether all before a place is found to begin a JSON text.
fn is_begun_before(alloc: Global, bytes: &[u8], at: usize) -> Result<bool, AllocError>
    requires { at ≤ length bytes.now }
    ensures { IfOk result (λ yes. IsTrue yes → IsBegun bytes.now at) }
{
    let yes = is_begun(alloc, &bytes[..at])?;
    Ok(yes)
}

/// Whether all before a place is good, and the text does not go on there.
fn is_placed(alloc: Global, bytes: &[u8], at: usize) -> Result<bool, AllocError>
    requires { at ≤ length bytes.now }
    ensures begun { IfOk result (λ yes. IsTrue yes → IsBegun bytes.now at) }
    ensures stops { IfOk result (λ yes. IsTrue yes → (at ≡ length bytes.now) ⊎ Stops bytes.now at) }
{
    if !is_good(alloc, bytes, at)? {
        return Ok(false);
    }
    let yes = stops(alloc, bytes, at)?;
    Ok(yes)
}

/// What is said of a text that ends within a word, a number or an escape.
const CUT: &str = "the text ends within a word, a number or an escape";

/// What is wrong first in a text that is not JSON: that it ends, where what is found is what its end has cut.
fn first_fault(alloc: Global, bytes: &[u8]) -> Result<Fault, AllocError>
    ensures { IfOk result (λ fault. fault.at ≤ length bytes.now) }
{
    let found = fault_in(alloc, bytes)?;
    if found.at >= bytes.len() || piece_end(bytes, found.at) < bytes.len() {
        return Ok(found);
    }
    if !is_cut(alloc, bytes)? {
        return Ok(found);
    }
    Ok(Fault {
        at: bytes.len(),
        what: CUT,
    })
}

/// What is wrong in a text that is not JSON, and whether its place is known: all before it is good then, and the text does not go on there. Where
/// it is not known, the words are those of no kind.
#[derive(Clone, Copy)]
pub struct Told {
    pub fault: Fault,
    pub placed: bool,
}

/// A fault whose place is known.
fn placed_fault(bytes: &[u8], found: Fault) -> Told
    requires within { found.at ≤ length bytes.now }
    requires begun { IsBegun bytes.now found.at }
    requires stops { (found.at ≡ length bytes.now) ⊎ Stops bytes.now found.at }
    ensures placed { IsTrue result.placed → IsFaultAt bytes.now result.fault.at result.fault.what.now }
    ensures untold { result.placed ≡ false → IsOfNoKind result.fault.what.now }
{
    let what = kind_at(bytes, found.at).words(found.what);
    Told {
        fault: Fault { at: found.at, what },
        placed: true,
    }
}

/// What is wrong in a text that is not JSON.
pub fn told_fault(alloc: Global, bytes: &[u8]) -> Result<Told, AllocError>
    ensures placed { IfOk result (λ told. IsTrue told.placed → IsFaultAt bytes.now told.fault.at told.fault.what.now) }
    ensures untold { IfOk result (λ told. told.placed ≡ false → IsOfNoKind told.fault.what.now) }
{
    let found = first_fault(alloc, bytes)?;
    if is_placed(alloc, bytes, found.at)? {
        return Ok(placed_fault(bytes, found));
    }
    let what = plain_words(found.what);
    Ok(Told {
        fault: Fault { at: found.at, what },
        placed: false,
    })
}
