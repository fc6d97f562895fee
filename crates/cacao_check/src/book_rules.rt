// The rules of a whole book, one function each.
ghost use Rattle.std.specs.Prelude.{◌≡◌, ◌↔◌, ◌<◌, IsTrue, length, not};
ghost use Rattle.std.specs.List.{list_all};
ghost use Rattle.std.specs.Str.{bytes_eq};
ghost use Rattle.cacao_check.specs.Rules.{K14, StartsWell, K15, K20, VarFits};
ghost use Rattle.cacao_check.specs.Sense.{KeepsOfBook};

use crate::fits::value_fits;
use crate::rules::SenseRule;
use cacao_book::{Book, StepKind, find_place};
use cacao_vars::{Var, Vars};

fn are_apart(earlier: &[Book], book: &Book) -> bool
    ensures { result ≡ list_all (λ one. not (bytes_eq one.id book.now.id)) earlier.now }
{
    earlier.iter().all(|one| !(one.id == book.id))
}

// Whether no earlier book has the identifier.
fn keeps_k14(books: &[Book], number: u32, book: &Book) -> bool
    requires { number < length books.now }
    ensures { IsTrue result ↔ K14 books.now number book.now }
{
    are_apart(&books[..number as usize], book)
}

// Whether the start names a start step.
fn starts_well(book: &Book) -> bool
    ensures { IsTrue result ↔ StartsWell book.now }
{
    let steps = book.steps.as_slice();
    match find_place(steps, book.start.text()) {
        Some(place) => matches!(steps[place].kind, StepKind::Start),
        None => false,
    }
}

// Whether the start names a start step, and the exception, if it is there, a step.
fn keeps_k15(book: &Book) -> bool
    ensures { IsTrue result ↔ K15 book.now }
{
    if !starts_well(book) {
        return false;
    }
    match &book.exception {
        Some(key) => find_place(book.steps.as_slice(), key.text()).is_some(),
        None => true,
    }
}

fn var_fits(var: &Var) -> bool
    ensures { IsTrue result ↔ VarFits var.now }
{
    match &var.worth {
        Some(word) => value_fits(&var.kind, word.text()),
        None => true,
    }
}

/// Whether the value of each variable fits its kind.
pub(crate) fn keeps_k20(vars: &Vars) -> bool
    ensures { IsTrue result ↔ K20 vars.now }
{
    for var in vars.as_slice() {
        if !var_fits(var) {
            return false;
        }
    }
    true
}

/// Whether a book keeps a rule.
pub(crate) fn keeps_of_book(books: &[Book], number: u32, book: &Book, rule: SenseRule) -> bool
    requires { number < length books.now }
    ensures { IsTrue result ↔ KeepsOfBook books.now number book.now rule }
{
    match rule {
        SenseRule::K14 => keeps_k14(books, number, book),
        SenseRule::K15 => keeps_k15(book),
        SenseRule::K20 => keeps_k20(&book.variables),
        _ => true,
    }
}
