// References to variables in texts.
ghost use Rattle.std.specs.Prelude.{◌≡◌, ◌≢◌, List, ◌+◌, ◌<◌, ◌≤◌, ◌++◌, None, Some, ℕ, ◌↔◌, IsTrue, IfNone, IfSome, codes, MatchOption, slice_index, true, false, length, take, drop};
ghost use Rattle.std.specs.List.{list_all};
ghost use Rattle.cacao_vars.specs.Names.{IsName, is_name_character};
ghost use Rattle.cacao_vars.specs.References.{reference_text, BeginsWithReference, HasReferenceAt, HasNoReference, StandsAt, IsFirstReference, IsExactFront, first_reference};

use crate::variable_names::{is_name, is_name_byte};

// How long a name may be.
const MAX_NAME: usize = 64;

// How many name characters the text begins with, of which no more than one past the limit are counted.
fn run_len(text: &[u8]) -> usize
    ensures within { result ≤ length text.now }
    ensures each { list_all is_name_character (take result text.now) ≡ true }
    ensures end { result ≤ 64 → result < length text.now → is_name_character (slice_index text.now result) ≡ false }
{
    let mut len = 0;
    for byte in text {
        if len > MAX_NAME || !is_name_byte(*byte) {
            break;
        }
        len += 1;
    }
    len
}

// Whether the text begins with `:value`.
fn begins_with_value(text: &[u8]) -> bool
    ensures { IsTrue result ↔ (text.now ≡ codes ":value" ++ drop 6 text.now) }
{
    text.starts_with(b":value")
}

// The length of the name of the reference with which the text begins.
fn name_len(text: &[u8]) -> Option<usize>
    ensures { MatchOption result (¬ (BeginsWithReference text.now)) (λ len. StandsAt text.now 0 len) }
{
    let len = run_len(text);
    if len > MAX_NAME {
        return None;
    }
    if !is_name(&text[..len]) {
        return None;
    }
    if !begins_with_value(&text[len..]) {
        return None;
    }
    Some(len)
}

/// The length of the name of the reference with which the text begins; None where it begins with none.
/// It takes no memory.
pub fn leading_reference(text: &[u8]) -> Option<usize>
    ensures cases { MatchOption result (¬ (BeginsWithReference text.now)) (λ len. StandsAt text.now 0 len) }
    ensures exact { IsExactFront text.now result }
{
    name_len(text)
}

// The first place at which a reference stands, and the length of its name.
fn first_place(text: &[u8]) -> Option<(usize, usize)>
    ensures cases { MatchOption result (HasNoReference text.now) (λ at. StandsAt text.now at.0 at.1) }
    ensures first { IfSome result (λ at. (place : ℕ) → place < at.0 → ¬ (HasReferenceAt text.now place)) }
{
    for place in 0..text.len() {
        match name_len(&text[place..]) {
            Some(len) => return Some((place, len)),
            None => {}
        }
    }
    None
}

/// A reference in a text: what stands before it, the name that it names, and what stands behind it.
#[derive(Clone, Copy)]
pub struct Reference<'a> {
    pub before: &'a str,
    pub name: &'a str,
    pub rest: &'a str,
}

/// The first reference of a text; None where there is none. The search for the next one goes on in `rest`.
/// It takes no memory.
pub fn find_reference(text: &str) -> Option<Reference<'_>>
    ensures none { IfNone result (HasNoReference text.now) }
    ensures first { IfSome result (λ r. IsFirstReference text.now (record { before = r.before.now; name = r.name.now; rest = r.rest.now })) }
    ensures exact { MatchOption result (first_reference text.now ≡ None) (λ r. first_reference text.now ≡ Some (record { before = r.before.now; name = r.name.now; rest = r.rest.now })) }
{
    let Some((place, len)) = first_place(text.as_bytes()) else {
        return None;
    };
    Some(Reference {
        before: &text[..place],
        name: &text[place..place + len],
        rest: &text[place + len + 6..],
    })
}

/// The name, where the text is exactly one reference; None where it is not. It takes no memory.
pub fn whole_reference(text: &str) -> Option<&str>
    ensures { MatchOption result ((name : List ℕ) → IsName name → text.now ≢ reference_text name)
        (λ name. IsName name.now × (text.now ≡ reference_text name.now)) }
{
    let name = text.strip_suffix(":value")?;
    if is_name(name.as_bytes()) {
        Some(name)
    } else {
        None
    }
}
