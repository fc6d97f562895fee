// Which books lead to which, by their playbook-actions.
ghost use Rattle.std.specs.Prelude.{◌≡◌, ◌↔◌, ℕ, ◌≤◌, ◌<◌, length, Contains, IfOk, OnOk, ◌++◌, option_to_list};
ghost use Rattle.base_graphs.specs.Tables.{IsWithin, row as row_of};
ghost use Rattle.cacao_check_steps.specs.Calls.{Calls, AreCallsOf};
ghost use Rattle.cacao_check_steps.specs.Parts.{ReadsSteps};
ghost use Rattle.cacao_check_regions.specs.Surveys.{AreSurveysOf, AreLeads};

use crate::surveys::Survey;
use base_graphs::{Bits, Places, reached};
use cacao_book::Book;
use cacao_check_steps::Parts;
use std::alloc::{AllocError, Global};

fn add_call(row: &mut Places, called: Option<u32>) -> Result<(), AllocError>
    ensures { OnOk result (row.new ≡ row.old ++ option_to_list called) }
{
    if let Some(number) = called {
        row.push(number)?;
        return Ok(());
    }
    Ok(())
}

// The books that the steps of a book call.
fn call_row(
    alloc: Global,
    books: &[Book],
    book: &Book,
    parts: &[Parts],
) -> Result<Places, AllocError>
    requires { ReadsSteps books.now book.now parts.now }
    ensures { IfOk result (AreCallsOf books.now book.now) }
{
    let _ = books;
    let _ = book;
    let mut row = Places::new(alloc);
    for part in parts {
        add_call(&mut row, part.called)?;
    }
    Ok(row)
}

fn call_table(alloc: Global, books: &[Book], surveys: &[Survey]) -> Result<Vec<Places>, AllocError>
    requires { AreSurveysOf books.now surveys.now }
    ensures within { IfOk result (λ rows. IsWithin (length books.now) rows.items) }
    ensures calls { IfOk result (λ rows. (from to : ℕ) → Contains (row_of rows.items from) to ↔ Calls books.now from to) }
{
    let mut rows = Vec::new(alloc);
    for (number, survey) in surveys.iter().enumerate() {
        let row = call_row(alloc, books, &books[number], survey.parts.as_slice())?;
        rows.push(row)?;
    }
    Ok(rows)
}

/// For each book, the books to which it leads, itself included.
pub fn leads_of(alloc: Global, books: &[Book], surveys: &[Survey]) -> Result<Vec<Bits>, AllocError>
    requires few { length books.now ≤ 16 }
    requires surveys { AreSurveysOf books.now surveys.now }
    ensures { IfOk result (λ leads. AreLeads books.now leads.items) }
{
    let table = call_table(alloc, books, surveys)?;
    let mut leads = Vec::new(alloc);
    for number in 0..books.len() {
        let marks = reached(alloc, books.len(), table.as_slice(), &[number as u32])?;
        leads.push(marks)?;
    }
    Ok(leads)
}
