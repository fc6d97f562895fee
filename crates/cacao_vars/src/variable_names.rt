// Names of variables.
ghost use Rattle.std.specs.Prelude.{◌≡◌, ◌↔◌, IsTrue, IsSome, IfOk, IfSome, nat_eq};
ghost use Rattle.std.specs.Cmp;
ghost use Rattle.std.specs.Cmp.Lexicographic.{pointwise, slice_cmp, nat_list_eq_equiv, nat_list_cmp_total, texts_ties, texts_po};
ghost use Rattle.std.specs.List.{list_all};
ghost use Rattle.std.specs.Ordering.{nat_cmp, as_partial_cmp};
ghost use Rattle.std.proofs.Common.{refl};
ghost use Rattle.cacao_vars.specs.Names.{IsName, is_name_character};

use base_texts::Text;
use std::alloc::{AllocError, Global};
use std::cmp::Ordering;
use std::marker::Model;

/// The name of a variable (CACAO 2.0, section 10.18): `__`, 1 to 60 of letters, digits, `_` and `-`, and `__`.
/// It is seen as the list of its bytes, and its order is theirs.
#[derive(Drop)]
pub struct Name {
    text: Text,
}

impl Model for Name {
    ghost use Rattle.std.specs.Prelude.{List, ℕ};
    ghost use Rattle.cacao_vars.specs.Names.{IsName};

    ghost Value = { List ℕ };

    ghost view = { λ name. name.text };

    ghost invariant = { λ name. IsName name.text };
}

// A letter, a digit, `_` or `-`.
pub(crate) fn is_name_byte(byte: u8) -> bool
    ensures { result ≡ is_name_character byte }
{
    byte.is_ascii_alphanumeric() || byte == b'_' || byte == b'-'
}

fn are_name_bytes(text: &[u8]) -> bool
    ensures { result ≡ list_all is_name_character text.now }
{
    text.iter().all(|byte| is_name_byte(*byte))
}

// Whether the text is a name.
pub(crate) fn is_name(text: &[u8]) -> bool
    ensures { IsTrue result ↔ IsName text.now }
{
    let len = text.len();
    if len < 5 || len > 64 || text[0] != b'_' || text[1] != b'_' {
        return false;
    }
    if text[len - 2] != b'_' || text[len - 1] != b'_' {
        return false;
    }
    are_name_bytes(&text[2..len - 2])
}

impl Name {
    /// Whether a text is a name. It takes no memory.
    pub fn fits(text: &str) -> bool
        ensures { IsTrue result ↔ IsName text.now }
    {
        is_name(text.as_bytes())
    }

    /// The name with this text; None where the text is none.
    pub fn read(alloc: Global, text: &str) -> Result<Option<Name>, AllocError>
        ensures grammar { IfOk result (λ found. IsSome found ↔ IsName text.now) }
        ensures value { IfOk result (λ found. IfSome found (λ name. name ≡ text.now)) }
    {
        if !is_name(text.as_bytes()) {
            return Ok(None);
        }
        let text = Text::from_str(alloc, text)?;
        Ok(Some(Name { text }))
    }

    /// The name with this text, which is known to be one, as that of a reference is.
    pub fn new(alloc: Global, text: &str) -> Result<Name, AllocError>
        requires { IsName text.now }
        ensures { IfOk result (λ name. name ≡ text.now) }
    {
        let text = Text::from_str(alloc, text)?;
        Ok(Name { text })
    }

    /// The whole text.
    pub fn text(&self) -> &str
        ensures text { result.now ≡ self.now }
        ensures grammar { IsName self.now }
    {
        self.text.text()
    }
}

impl Clone for Name {
    ghost is_clone = { λ name copy. copy ≡ name };

    fn clone(&self) -> Result<Name, AllocError> {
        let text = self.text.clone()?;
        Ok(Name { text })
    }
}

impl PartialEq for Name {
    ghost eq = { pointwise nat_eq };

    ghost laws = { Cmp.partial_equiv_from_equiv nat_list_eq_equiv };

    fn eq(&self, other: &Name) -> bool {
        self.text == other.text
    }
}

impl Eq for Name {
    ghost laws = { nat_list_eq_equiv };
}

impl PartialOrd for Name {
    ghost partial_cmp = { as_partial_cmp (slice_cmp nat_cmp) };

    ghost laws = { texts_po };

    fn partial_cmp(&self, other: &Name) -> Option<Ordering> {
        Some(self.cmp(other))
    }
}

impl Ord for Name {
    ghost cmp = { slice_cmp nat_cmp };

    ghost total = { nat_list_cmp_total };

    ghost matches_partial_cmp = { λ x y. refl };

    ghost matches_eq = { texts_ties };

    fn cmp(&self, other: &Name) -> Ordering {
        self.text.cmp(&other.text)
    }
}
