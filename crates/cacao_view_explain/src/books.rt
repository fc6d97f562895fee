// The playbook that is at fault, its survey, and its step.
ghost use Rattle.std.specs.Prelude.{◌≡◌, ◌∷◌, [], IfOk, IfSome, Some, option_and_then, option_map, slice_get};
ghost use Rattle.std.specs.Option.{option_copied};
ghost use Rattle.cacao_json.specs.Tree.{data_of};
ghost use Rattle.cacao_book.specs.Books.{book};
ghost use Rattle.cacao_book.specs.Steps.{KeepsLimits, place_of};
ghost use Rattle.cacao_check_regions.specs.Surveys.{AreSurveysOf, IsSurveyOf};

use cacao_book::{Book, Step, find_place, read_book};
use cacao_check_regions::Survey;
use cacao_json::Tree;
use std::alloc::{AllocError, Global};

/// The books of these trees, each of which is well shaped.
pub(crate) fn books_of(alloc: Global, trees: &[Tree]) -> Result<Vec<Book>, AllocError> {
    let mut books = Vec::new(alloc);
    for tree in trees {
        match read_book(alloc, tree) {
            Ok(book) => books.push(book)?,
            Err(_) => return Err(AllocError),
        }
    }
    Ok(books)
}

/// The playbook of a tree that is well shaped, alone.
pub(crate) fn one_book(alloc: Global, tree: &Tree) -> Result<Vec<Book>, AllocError>
    ensures { IfOk result (λ books. books.items ≡ book (data_of tree.now) ∷ []) }
{
    let mut books = Vec::new(alloc);
    match read_book(alloc, tree) {
        Ok(book) => books.push(book)?,
        Err(_) => return Err(AllocError),
    }
    Ok(books)
}

/// The first of these playbooks.
pub(crate) fn first_book(books: &[Book]) -> Option<&Book>
    ensures { option_copied result ≡ slice_get books.now 0 }
{
    books.get(0)
}

/// Its survey.
pub(crate) fn first_survey<'a>(
    books: &[Book],
    surveys: &'a [Survey],
    book: &Book,
) -> Option<&'a Survey>
    requires surveys { AreSurveysOf books.now surveys.now }
    requires here { slice_get books.now 0 ≡ Some book.now }
    ensures { IfSome result (λ survey. IsSurveyOf books.now book.now survey.now) }
{
    let _ = books;
    let _ = book;
    surveys.get(0)
}

/// The step at a place.
pub(crate) fn step_at<'a>(book: &'a Book, place: u32) -> Option<&'a Step>
    ensures step { option_copied result ≡ slice_get book.now.steps place }
    ensures limits { IfSome result (λ step. KeepsLimits step.now) }
{
    book.steps.as_slice().get(place as usize)
}

/// The place of the step with this key, if one is named.
pub(crate) fn place_at(book: &Book, key: Option<&str>) -> Option<u32>
    ensures { result ≡ option_and_then (place_of book.now.steps) (option_map (λ text. text.now) key.entry) }
{
    let Some(key) = key else {
        return None;
    };
    match find_place(book.steps.as_slice(), key) {
        Some(place) => Some(place as u32),
        None => None,
    }
}
