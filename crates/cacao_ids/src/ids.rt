// Identifiers.
ghost use Rattle.std.specs.Prelude.{◌≡◌, ◌↔◌, ◌<◌, IsTrue, IsSome, IfOk, IfSome, nat_eq};
ghost use Rattle.std.specs.Cmp;
ghost use Rattle.std.specs.Cmp.Lexicographic.{pointwise, slice_cmp, nat_list_eq_equiv, nat_list_cmp_total, texts_ties, texts_po};
ghost use Rattle.std.specs.Ordering.{nat_cmp, as_partial_cmp};
ghost use Rattle.std.proofs.Common.{refl};
ghost use Rattle.cacao_ids.specs.Ids.{IsObjectType, HasObjectType, IsId, is_part_character};

use crate::uuids::is_uuid;
use std::alloc::{AllocError, Global};
use std::cmp::Ordering;
use std::marker::Model;

/// An identifier of a playbook, a step, an agent or a target (the identifier data type of CACAO 2.0): an object
/// type, two hyphens and a UUID, at most 128 bytes in all.
#[derive(Clone, Drop)]
pub struct Id {
    text: String,
}

impl Model for Id {
    ghost use Rattle.std.specs.Prelude.{List, ℕ};
    ghost use Rattle.std.specs.String.{string_bytes};
    ghost use Rattle.cacao_ids.specs.Ids.{IsId};

    ghost Value = { List ℕ };

    ghost view = { λ id. string_bytes id.text };

    ghost invariant = { λ id. IsId (string_bytes id.text) };
}

// How long an identifier may be.
const MAX_BYTES: usize = 128;

// A letter from `a` to `z`, or a digit.
fn is_part_byte(byte: u8) -> bool
    ensures { result ≡ is_part_character byte }
{
    byte.is_ascii_lowercase() || byte.is_ascii_digit()
}

// Whether the text is one or more parts joined by single hyphens.
fn is_object_type(text: &[u8]) -> bool
    ensures { IsTrue result ↔ IsObjectType text.now }
{
    let mut is_in_part = false;
    for byte in text {
        if is_part_byte(*byte) {
            is_in_part = true;
        } else if *byte == b'-' && is_in_part {
            is_in_part = false;
        } else {
            return false;
        }
    }
    is_in_part
}

// Whether the text is an identifier.
fn is_id(text: &str) -> bool
    ensures { IsTrue result ↔ IsId text.now }
{
    let bytes = text.as_bytes();
    let len = bytes.len();
    if len > MAX_BYTES || len < 38 || bytes[len - 38] != b'-' || bytes[len - 37] != b'-' {
        return false;
    }
    is_object_type(&bytes[..len - 38]) && is_uuid(&text[len - 36..])
}

impl Id {
    /// The identifier with this text; None where the text is none.
    pub fn read(alloc: Global, text: &str) -> Result<Option<Id>, AllocError>
        ensures grammar { IfOk result (λ found. IsSome found ↔ IsId text.now) }
        ensures value { IfOk result (λ found. IfSome found (λ id. id ≡ text.now)) }
    {
        if !is_id(text) {
            return Ok(None);
        }
        let text = String::from_str(alloc, text)?;
        Ok(Some(Id { text }))
    }

    /// The part before the two hyphens.
    pub fn object_type(&self) -> &str
        ensures { HasObjectType result.now self.now }
    {
        let text = self.text.as_str();
        &text[..text.len() - 38]
    }

    /// The whole text.
    pub fn text(&self) -> &str
        ensures text { result.now ≡ self.now }
        ensures grammar { IsId self.now }
    {
        self.text.as_str()
    }
}

impl PartialEq for Id {
    ghost eq = { pointwise nat_eq };

    ghost laws = { Cmp.partial_equiv_from_equiv nat_list_eq_equiv };

    fn eq(&self, other: &Id) -> bool {
        self.text == other.text
    }
}

impl Eq for Id {
    ghost laws = { nat_list_eq_equiv };
}

impl PartialOrd for Id {
    ghost partial_cmp = { as_partial_cmp (slice_cmp nat_cmp) };

    ghost laws = { texts_po };

    fn partial_cmp(&self, other: &Id) -> Option<Ordering> {
        Some(self.cmp(other))
    }
}

impl Ord for Id {
    ghost cmp = { slice_cmp nat_cmp };

    ghost total = { nat_list_cmp_total };

    ghost matches_partial_cmp = { λ x y. refl };

    ghost matches_eq = { texts_ties };

    fn cmp(&self, other: &Id) -> Ordering {
        self.text.cmp(&other.text)
    }
}
