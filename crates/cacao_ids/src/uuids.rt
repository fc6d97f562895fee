// The second part of an identifier.
ghost use Rattle.std.specs.Prelude.{◌↔◌, ◌⊎◌, ◌<◌, IsTrue, EachIndex, slice_index};
ghost use Rattle.cacao_ids.specs.Uuids.{IsUuid};

use uuid::Uuid;

// No letter from `A` to `F`.
fn has_no_upper_hex(text: &[u8]) -> bool
    ensures { IsTrue result ↔ EachIndex text.now (λ k. (slice_index text.now k < 65) ⊎ (70 < slice_index text.now k)) }
{
    text.iter().all(|byte| *byte < b'A' || *byte > b'F')
}

/// Whether the text is a UUID of 36 characters in lower case (RFC 9562, section 4), of any version.
pub fn is_uuid(text: &str) -> bool
    ensures { IsTrue result ↔ IsUuid text.now }
{
    text.len() == 36 && has_no_upper_hex(text.as_bytes()) && Uuid::parse_str(text).is_ok()
}
