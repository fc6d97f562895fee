// Whether two declarations are the same.
ghost use Rattle.std.specs.Prelude.{◌≡◌, ◌↔◌, IsTrue};
ghost use Rattle.cacao_check_regions.specs.Flaws.{same_kind as same_kind_of};

use cacao_vars::{Kind, Var, Word};

fn same_text(one: &str, other: &str) -> bool
    ensures { IsTrue result ↔ (one.now ≡ other.now) }
{
    one == other
}

/// Whether two kinds are the same.
pub(crate) fn same_kind(one: &Kind, other: &Kind) -> bool
    ensures same { IsTrue result ↔ (one.now ≡ other.now) }
    ensures test { result ≡ same_kind_of one.now other.now }
{
    *one == *other
}

fn same_worth(one: &Option<Word>, other: &Option<Word>) -> bool
    ensures { IsTrue result ↔ (one.now ≡ other.now) }
{
    match (one, other) {
        (Some(one), Some(other)) => same_text(one.text(), other.text()),
        (None, None) => true,
        _ => false,
    }
}

/// Whether two declarations are the same in all that they say.
pub(crate) fn same_var(one: &Var, other: &Var) -> bool
    ensures { IsTrue result ↔ (one.now ≡ other.now) }
{
    same_text(one.name.text(), other.name.text())
        && same_kind(&one.kind, &other.kind)
        && same_worth(&one.worth, &other.worth)
        && one.constant == other.constant
        && one.external == other.external
}
