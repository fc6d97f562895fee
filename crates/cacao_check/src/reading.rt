// From the trees of playbooks to playbooks that break no rule.
ghost use Rattle.std.specs.Prelude.{◌≡◌, ◌≤◌, All, IfErr, IfOk, OnOk, length, map};
ghost use Rattle.cacao_json.specs.Tree.{data_of};
ghost use Rattle.cacao_book.specs.Books.{book};
ghost use Rattle.cacao_book.specs.Steps.{AreSteps};
ghost use Rattle.cacao_check.specs.FirstBreak.{AreWellShaped, IsAccepted, RefusesShapes, RefusesTrees, shape_error};

use crate::books::Books;
use crate::breaks::{Break, CheckError, Mode};
use crate::checked::Checked;
use crate::checking::check;
use cacao_book::{BookError, read_book};
use cacao_json::Tree;
use std::alloc::Global;

// The refusal for a break of shape of the playbook with this number.
fn shape_error(book: u32, error: BookError) -> CheckError
    ensures { result ≡ shape_error book error }
{
    match error {
        BookError::Shape { step, rule } => CheckError::Broken(Break { book, step, rule }),
        BookError::Memory => CheckError::Memory,
    }
}

/// The playbooks of at most 16 trees, in order. They are refused exactly where one of the rules of shape is broken (K1 to K12), and then
/// the first break is named: by the number of the tree, then as `read_book` does.
pub fn shaped_books(alloc: Global, trees: &[Tree]) -> Result<Books, CheckError>
    requires few { length trees.now ≤ 16 }
    ensures books { IfOk result (λ books. books ≡ map book (map data_of trees.now)) }
    ensures steps { IfOk result (λ books. All (λ one. AreSteps one.steps) books) }
    ensures shaped { OnOk result (AreWellShaped (map data_of trees.now)) }
    ensures broken { IfErr result (RefusesShapes (map data_of trees.now)) }
{
    let mut books = Books::new(alloc);
    for n in 0..trees.len() {
        let book = match read_book(alloc, &trees[n]) {
            Ok(book) => book,
            Err(error) => return Err(shape_error(n as u32, error)),
        };
        let _ = book.steps.as_slice();
        books.push(book)?;
    }
    Ok(books)
}

/// The playbooks of 1 to 16 trees, judged by all rules, some of which hold in mode `Run` alone. They are refused exactly where one of the rules
/// is broken, and then the first break is named: the rules of shape (K1 to K12) of all playbooks come before those of sense (K13 to K25).
pub fn read_books(alloc: Global, trees: &[Tree], mode: Mode) -> Result<Checked, CheckError>
    requires some { 1 ≤ length trees.now }
    requires few { length trees.now ≤ 16 }
    ensures value { IfOk result (λ checked. (checked.books ≡ map book (map data_of trees.now)) × (checked.mode ≡ mode)) }
    ensures steps { IfOk result (λ checked. All (λ one. AreSteps one.steps) checked.books) }
    ensures accepted { OnOk result (IsAccepted (map data_of trees.now) mode) }
    ensures broken { IfErr result (RefusesTrees (map data_of trees.now) mode) }
{
    let books = match shaped_books(alloc, trees) {
        Ok(books) => books,
        Err(error) => return Err(error),
    };
    match check(alloc, books, mode) {
        Ok(checked) => Ok(checked),
        Err(error) => Err(error),
    }
}
