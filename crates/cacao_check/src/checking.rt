// Whether playbooks make sense together.
ghost use Rattle.std.specs.Prelude.{◌≡◌, ◌≤◌, length, IfOk, OnOk, IfErr};
ghost use Rattle.cacao_check.specs.Sense.{IsSound};
ghost use Rattle.cacao_check.specs.Checks.{RefusesBooks};
ghost use Rattle.cacao_check_regions.specs.Surveys.{AreSurveysOf};
ghost use Rattle.cacao_check.specs.Tables.{AreTablesOf, HasTables};

use crate::books::Books;
use crate::breaks::{CheckError, Mode};
use crate::checked::Checked;
use crate::walking::least_break;
use cacao_book::Book;
use cacao_check_regions::{Regions, Survey, leads_of, regions_of, survey_all};
use std::alloc::{AllocError, Global};

// The regions of each book.
fn regions_of_all(
    alloc: Global,
    books: &[Book],
    surveys: &[Survey],
) -> Result<Vec<Regions>, AllocError>
    requires { AreSurveysOf books.now surveys.now }
    ensures { IfOk result (λ regions. AreTablesOf books.now regions.items) }
{
    let mut all = Vec::new(alloc);
    for (number, book) in books.iter().enumerate() {
        let regions = regions_of(alloc, book, &surveys[number].chart)?;
        all.push(regions)?;
    }
    Ok(all)
}

// The tables of books that break no rule.
fn examine(
    alloc: Global,
    books: &[Book],
    mode: Mode,
) -> Result<(Vec<Survey>, Vec<Regions>), CheckError>
    requires some { 1 ≤ length books.now }
    requires few { length books.now ≤ 16 }
    ensures ok { IfOk result (λ tables. HasTables books.now mode tables.0.items tables.1.items) }
    ensures broken { IfErr result (RefusesBooks books.now mode) }
{
    let surveys = survey_all(alloc, books)?;
    let leads = leads_of(alloc, books, surveys.as_slice())?;
    let found = least_break(alloc, books, mode, surveys.as_slice(), leads.as_slice())?;
    if let Some(told) = found {
        return Err(CheckError::Broken(told));
    }
    let regions = regions_of_all(alloc, books, surveys.as_slice())?;
    Ok((surveys, regions))
}

/// Checks playbooks that are well shaped against the rules K13 to K25, some of which hold in mode `Run` alone. They
/// are refused exactly where one of the rules is broken, and then the first break is named: by the number of the book,
/// the book before its steps, steps in the order of their keys, then by the number of the rule. The playbooks are
/// given up on a refusal.
pub fn check(alloc: Global, books: Books, mode: Mode) -> Result<Checked, CheckError>
    requires some { 1 ≤ length books }
    requires few { length books ≤ 16 }
    ensures value { IfOk result (λ c. (c.books ≡ books) × (c.mode ≡ mode)) }
    ensures sound { OnOk result (IsSound books mode) }
    ensures broken { IfErr result (RefusesBooks books mode) }
{
    match examine(alloc, books.as_slice(), mode) {
        Ok((surveys, regions)) => Ok(Checked::new(books, mode, surveys, regions)),
        Err(refusal) => Err(refusal),
    }
}
