// The steps of playbooks, each with the cluster in which it is drawn.
ghost use Rattle.std.specs.Prelude.{◌≡◌, ◌<◌, ◌≤◌, ℕ, IfOk, Some, length, map, slice_get};
ghost use Rattle.cacao_book.specs.Books.{book as book_of, step_of};
ghost use Rattle.cacao_check_regions.specs.Charts.{AreRegionsOf, IsChartOf};
ghost use Rattle.cacao_check_regions.specs.Surveys.{AreSurveysOf};
ghost use Rattle.cacao_json.specs.Tree.{data_of, pair_data};
ghost use Rattle.cacao_view_graph.specs.Homes.{IsHome};
ghost use Rattle.cacao_view_graph.specs.Pictures.{AreDrawn, AreMarked, AreStepsMarked, IsDrawn, IsMarked};
ghost use Rattle.cacao_view_graph.specs.Placing.{AreDrawnOf, drawn_book, drawn_of};
ghost use Rattle.cacao_view_graph.specs.Tallies.{AllTallied, HasTally, HaveTallies, IfTallied};

use crate::homes::home_key;
use crate::marks::{Marks, mark_at};
use crate::placed::Placed;
use crate::placed_book::PlacedBook;
use crate::tally::{Tally, tallies_of};
use cacao_book::Book;
use cacao_book_shape::members_at;
use cacao_check_regions::{Regions, Survey, regions_of};
use cacao_json::{Pair, Tree};
use std::alloc::{AllocError, Global};

/// The step at a place of the playbook, with its home and what is marked there.
fn placed_step<'a>(
    alloc: Global,
    pair: &'a Pair,
    book: &'a Book,
    regions: &Regions,
    marks: &Option<Marks>,
    tallies: &[Tally],
    place: usize,
) -> Result<Placed<'a>, AllocError>
    requires there { place < length book.now.steps }
    requires same { slice_get book.now.steps place ≡ Some (step_of (pair_data pair.now)) }
    requires regions { AreRegionsOf book.now regions.now }
    requires tallied { HasTally marks.now place tallies.now }
    ensures member { IfOk result (λ step. (drawn_of step).member ≡ pair_data pair.now) }
    ensures home { IfOk result (λ step. IsHome book.now place (drawn_of step).home) }
    ensures marked { IfOk result (λ step. (number : ℕ) → IfTallied marks.now number place tallies.now → IsMarked marks.now number place (drawn_of step)) }
{
    let steps = book.steps.as_slice();
    let step = &steps[place];
    let home = home_key(book, regions, place as u32);
    let mark = mark_at(alloc, marks, tallies, place)?;
    Ok(Placed {
        pair,
        step,
        home,
        mark,
    })
}

/// The steps of the playbook, each with its home and what is marked there.
fn placed_steps<'a>(
    alloc: Global,
    pairs: &'a [Pair],
    book: &'a Book,
    regions: &Regions,
    marks: &Option<Marks>,
    tallies: &[Tally],
) -> Result<Vec<Placed<'a>>, AllocError>
    requires same { book.now.steps ≡ map step_of (map pair_data pairs.now) }
    requires regions { AreRegionsOf book.now regions.now }
    requires tallied { HaveTallies marks.now (length pairs.now) tallies.now }
    ensures drawn { IfOk result (λ steps. AreDrawnOf book.now (map pair_data pairs.now) (map drawn_of steps.items)) }
    ensures marked { IfOk result (λ steps. (number : ℕ) → AllTallied marks.now number (length pairs.now) tallies.now
        → AreStepsMarked marks.now number (map drawn_of steps.items)) }
{
    let mut steps = Vec::new(alloc);
    for place in 0..pairs.len() {
        let step = placed_step(alloc, &pairs[place], book, regions, marks, tallies, place)?;
        steps.push(step)?;
    }
    Ok(steps)
}

/// The playbook with this number, and its steps with their homes and what is marked there.
fn placed_book<'a>(
    alloc: Global,
    tree: &'a Tree,
    book: &'a Book,
    survey: &Survey,
    marks: &Option<Marks>,
    number: u32,
) -> Result<PlacedBook<'a>, AllocError>
    requires read { book.now ≡ book_of (data_of tree.now) }
    requires chart { IsChartOf book.now survey.now.chart }
    ensures tree { IfOk result (λ placed. (drawn_book placed).tree ≡ data_of tree.now) }
    ensures drawn { IfOk result (λ placed. IsDrawn (drawn_book placed)) }
    ensures marked { IfOk result (λ placed. AreStepsMarked marks.now number (drawn_book placed).steps) }
{
    let regions = regions_of(alloc, book, &survey.chart)?;
    let pairs = members_at(tree, "workflow");
    let tallies = tallies_of(alloc, marks, number, pairs.len())?;
    let steps = placed_steps(alloc, pairs, book, &regions, marks, tallies.as_slice())?;
    Ok(PlacedBook { tree, book, steps })
}

/// The playbooks, and their steps with their homes and what is marked there.
pub(crate) fn placed_books<'a>(
    alloc: Global,
    trees: &'a [Tree],
    books: &'a [Book],
    surveys: &[Survey],
    marks: &Option<Marks>,
) -> Result<Vec<PlacedBook<'a>>, AllocError>
    requires few { length trees.now ≤ 16 }
    requires read { books.now ≡ map book_of (map data_of trees.now) }
    requires surveys { AreSurveysOf books.now surveys.now }
    ensures drawn { IfOk result (λ placed. AreDrawn (map data_of trees.now) (map drawn_book placed.items)) }
    ensures marked { IfOk result (λ placed. AreMarked marks.now (map drawn_book placed.items)) }
{
    let mut placed = Vec::new(alloc);
    for n in 0..trees.len() {
        let book = placed_book(alloc, &trees[n], &books[n], &surveys[n], marks, n as u32)?;
        placed.push(book)?;
    }
    Ok(placed)
}
