// The values by which conditions are decided.
ghost use Rattle.std.specs.Prelude.{◌≡◌, option_map};
ghost use Rattle.cacao_cond.specs.Worths.{worth_of, whole_worth, flag_worth, value_of};

use base_decimals::{MOST_EXACT, read_integer};
use cacao_vars::{Kind, Name};

/// The value of a variable: unset, a whole number, a flag, or a text.
#[derive(Clone, Copy, PartialEq, Eq)]
pub enum Atom<'a> {
    Unset,
    Whole(i64),
    Flag(bool),
    Text(&'a str),
}

/// The most that a variable of kind `long` is below 0.
const MOST_BELOW: u64 = 9_223_372_036_854_775_808;

/// The most that a variable of kind `long` is above 0.
const MOST_ABOVE: u64 = 9_223_372_036_854_775_807;

fn whole_or_unset<'a>(whole: Option<i64>) -> Atom<'a>
    ensures { worth_of result ≡ whole_worth whole }
{
    match whole {
        Some(whole) => Atom::Whole(whole),
        None => Atom::Unset,
    }
}

fn flag_or_unset<'a>(text: &str) -> Atom<'a>
    ensures { worth_of result ≡ flag_worth text.now }
{
    match text {
        "true" => Atom::Flag(true),
        "false" => Atom::Flag(false),
        _ => Atom::Unset,
    }
}

/// The value of a variable with this text by its kind (CACAO 2.0, section 10.18): a whole number for `integer` and
/// `long`, a flag for `bool`, and the text itself for all others. Unset where there is no text, and where the text does
/// not fit a kind whose values are numbers or flags, as the empty one. It takes no memory.
pub fn value_of<'a>(kind: &Kind, text: Option<&'a str>) -> Atom<'a>
    ensures { worth_of result ≡ value_of kind.now (option_map (λ t. t.now) text.entry) }
{
    let Some(text) = text else {
        return Atom::Unset;
    };
    match kind {
        Kind::Integer => whole_or_unset(read_integer(text.as_bytes(), MOST_EXACT, MOST_EXACT)),
        Kind::Long => whole_or_unset(read_integer(text.as_bytes(), MOST_BELOW, MOST_ABOVE)),
        Kind::Bool => flag_or_unset(text),
        _ => Atom::Text(text),
    }
}

/// Gives names their values, for a condition to be decided by them.
pub trait Worths {
    ghost use Rattle.std.specs.Prelude.{List, ℕ, ⊤};
    ghost use Rattle.cacao_cond.specs.Worths.{Worth};

    // What a name is worth.
    ghost worth: { Self → List ℕ → Worth };

    // Whether it may be asked.
    ghost may_tell: { Self → Type 0 } = { λ worths. ⊤ };

    /// The value of a name: unset where it has none.
    fn worth(&self, name: &Name) -> Atom<'_>
        requires { may_tell self.now }
        ensures { worth_of result ≡ worth self.now name.now };
}
