// What is found out of a book before its rules are asked.
ghost use Rattle.std.specs.Prelude.{◌≤◌, ◌<◌, length, IfOk};
ghost use Rattle.cacao_check_regions.specs.Surveys.{IsSurveyOf, AreSurveysOf};

use crate::charts::{Chart, chart_of};
use crate::endings::ending;
use crate::regions::{enclosing, placed};
use base_graphs::Bits;
use cacao_book::Book;
use cacao_check_steps::{Parts, read_steps};
use std::alloc::{AllocError, Global};

/// What is found out of a book: what is read of its steps, its links, and the places of the steps that stand in a region, from
/// which a path can end, and that enclose themselves.
pub struct Survey {
    pub parts: Vec<Parts>,
    pub chart: Chart,
    pub placed: Bits,
    pub ending: Bits,
    pub enclosing: Bits,
}

// (by hand, and not by derive: so a drop is one call in the proofs of all who own one)
impl Drop for Survey {
    fn drop(self) {
        let Self {
            parts: _,
            chart: _,
            placed: _,
            ending: _,
            enclosing: _,
        } = self;
    }
}

fn survey_book(alloc: Global, books: &[Book], book: &Book) -> Result<Survey, AllocError>
    requires { length books.now ≤ 16 }
    ensures { IfOk result (IsSurveyOf books.now book.now) }
{
    let parts = read_steps(alloc, books, book)?;
    let chart = chart_of(alloc, book, parts.as_slice())?;
    let placed = placed(alloc, book, &chart)?;
    let ending = ending(alloc, book, &chart)?;
    let enclosing = enclosing(alloc, book, &chart)?;
    Ok(Survey {
        parts,
        chart,
        placed,
        ending,
        enclosing,
    })
}

/// A survey of each book.
pub fn survey_all(alloc: Global, books: &[Book]) -> Result<Vec<Survey>, AllocError>
    requires { length books.now ≤ 16 }
    ensures { IfOk result (λ surveys. AreSurveysOf books.now surveys.items) }
{
    let mut surveys = Vec::new(alloc);
    for book in books {
        let survey = survey_book(alloc, books, book)?;
        surveys.push(survey)?;
    }
    Ok(surveys)
}
