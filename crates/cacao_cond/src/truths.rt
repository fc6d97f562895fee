// How conditions are decided.
ghost use Rattle.std.specs.Prelude.{◌≡◌};
ghost use Rattle.std.specs.Fmt.{signed_decimal};
ghost use Rattle.std.specs.Str.{bytes_eq};
ghost use Rattle.cacao_cond.specs.Worths.{whole, flag, text, worth_of};
ghost use Rattle.cacao_cond.specs.Trees.{constants_of, tree_of, all_of_tree, prime_tree};
ghost use Rattle.cacao_cond.specs.Truth.{flag_text, equals, order_of, compares, is_among, holds_by, holds_all, holds_prime};

use crate::deciding::{Atom, Worths};
use crate::trees::{AllOf, Cond, Constant, Constants, Op, Prime};
use cacao_vars::Name;
use itoa::Buffer;
use std::cmp::Ordering;

fn text_of_flag(flag: bool) -> &'static str
    ensures { result.now ≡ flag_text flag }
{
    if flag { "true" } else { "false" }
}

// Whether the decimal text of the number is this text.
fn is_text_of(value: i64, text: &str) -> bool
    ensures { result ≡ bytes_eq (signed_decimal value) text.now }
{
    let mut buffer = Buffer::new();
    buffer.format(value) == text
}

fn whole_equals(value: i64, constant: &Constant) -> bool
    ensures { result ≡ equals (whole value) constant.now }
{
    match constant {
        Constant::Whole(other) => value == *other,
        Constant::Flag(other) => is_text_of(value, text_of_flag(*other)),
        Constant::Text(other) => is_text_of(value, other.text()),
    }
}

fn flag_equals(value: bool, constant: &Constant) -> bool
    ensures { result ≡ equals (flag value) constant.now }
{
    match constant {
        Constant::Whole(other) => is_text_of(*other, text_of_flag(value)),
        Constant::Flag(other) => value == *other,
        Constant::Text(other) => text_of_flag(value) == other.text(),
    }
}

fn text_equals(value: &str, constant: &Constant) -> bool
    ensures { result ≡ equals (text value.now) constant.now }
{
    match constant {
        Constant::Whole(other) => is_text_of(*other, value),
        Constant::Flag(other) => text_of_flag(*other) == value,
        Constant::Text(other) => value == other.text(),
    }
}

// `=`.
fn is_equal(value: Atom<'_>, constant: &Constant) -> bool
    ensures { result ≡ equals (worth_of value.entry) constant.now }
{
    match value {
        Atom::Unset => false,
        Atom::Whole(value) => whole_equals(value, constant),
        Atom::Flag(value) => flag_equals(value, constant),
        Atom::Text(value) => text_equals(value, constant),
    }
}

// The order of two values of one sort.
fn order(value: Atom<'_>, constant: &Constant) -> Option<Ordering>
    ensures { result ≡ order_of (worth_of value.entry) constant.now }
{
    match value {
        Atom::Unset => None,
        Atom::Whole(value) => match constant {
            Constant::Whole(other) => Some(value.cmp(other)),
            _ => None,
        },
        Atom::Flag(value) => match constant {
            Constant::Flag(other) => Some(value.cmp(other)),
            _ => None,
        },
        Atom::Text(value) => match constant {
            Constant::Text(other) => Some(value.cmp(other.text())),
            _ => None,
        },
    }
}

// Whether a comparison holds.
fn is_true_of(value: Atom<'_>, op: Op, constant: &Constant) -> bool
    ensures { result ≡ compares (worth_of value.entry) op constant.now }
{
    match op {
        Op::Equal => is_equal(value, constant),
        Op::Unequal => match value {
            Atom::Unset => false,
            _ => !is_equal(value, constant),
        },
        Op::Less => match order(value, constant) {
            Some(order) => order.is_lt(),
            None => false,
        },
        Op::AtMost => match order(value, constant) {
            Some(order) => order.is_le(),
            None => false,
        },
        Op::More => match order(value, constant) {
            Some(order) => order.is_gt(),
            None => false,
        },
        Op::AtLeast => match order(value, constant) {
            Some(order) => order.is_ge(),
            None => false,
        },
    }
}

// Whether the value equals one of the constants.
fn is_one_of(value: Atom<'_>, constants: &Constants) -> bool
    ensures { result ≡ is_among (worth_of value.entry) (constants_of constants.now) }
{
    match constants {
        Constants::Last(constant) => is_equal(value, constant),
        Constants::More(constant, rest) => is_equal(value, constant) || is_one_of(value, rest),
    }
}

fn compared_is_true<W: Worths>(name: &Name, op: Op, constant: &Constant, worths: &W) -> bool
    requires { W.may_tell worths.now }
    ensures { result ≡ compares (W.worth worths.now name.now) op constant.now }
{
    is_true_of(worths.worth(name), op, constant)
}

fn among_is_true<W: Worths>(name: &Name, constants: &Constants, worths: &W) -> bool
    requires { W.may_tell worths.now }
    ensures { result ≡ is_among (W.worth worths.now name.now) (constants_of constants.now) }
{
    is_one_of(worths.worth(name), constants)
}

/// Whether the condition holds where its names have these values. Each is asked for where it is compared, so this takes
/// no memory of its own; what behind an `OR` or an `AND` decides nothing more is not asked for.
#[cycle(truth)]
pub fn truth<W: Worths>(cond: &Cond, worths: &W) -> bool
    requires { W.may_tell worths.now }
    ensures { result ≡ holds_by (tree_of cond.now) (W.worth worths.now) }
{
    match cond {
        Cond::Last(part) => all_hold(part, worths),
        Cond::Or(part, rest) => all_hold(part, worths) || truth(rest, worths),
    }
}

#[cycle(truth)]
fn all_hold<W: Worths>(all: &AllOf, worths: &W) -> bool
    requires { W.may_tell worths.now }
    ensures { result ≡ holds_all (all_of_tree all.now) (W.worth worths.now) }
{
    match all {
        AllOf::Last(prime) => prime_holds(prime, worths),
        AllOf::And(prime, rest) => prime_holds(prime, worths) && all_hold(rest, worths),
    }
}

#[cycle(truth)]
fn prime_holds<W: Worths>(prime: &Prime, worths: &W) -> bool
    requires { W.may_tell worths.now }
    ensures { result ≡ holds_prime (prime_tree prime.now) (W.worth worths.now) }
{
    match prime {
        Prime::Group(cond) => truth(cond, worths),
        Prime::Compare { name, op, constant } => compared_is_true(name, *op, constant, worths),
        Prime::Among { name, constants } => among_is_true(name, constants, worths),
    }
}
